// A port's provider, looked up many times in one operation. A table that the operation lends keeps the keys that a place may offer, a bit
// for each one's remainder by 64: at first all bits, and once the place was looked at in vain those of the keys that it offers.
#![tactic(auto)]

ghost use Rattle.std.specs.Prelude.{◌≡◌, ◌<◌, ◌%◌, set};
ghost use Rattle.rules.specs.Holds.{port};
ghost use Rattle.rules.specs.Ports.{pairs};
ghost use Rattle.memory.specs.Layout.{word, places};
ghost use Rattle.memory_keys.specs.Tables.{bits_without, keys_without, offers_by, kept_by, provider_by, table_by};

use memory::WORDS;
use memory::layout::PLACES;
use rules::Port;

// The bits of the ports' keys beside those of a word, or nothing if the port is one of them.
fn bits_without(word: u64, ports: &[u64], port: Port) -> Option<u64>
    ensures { result ≡ bits_without word (pairs ports.now) port }
{
    let mut bits = word;
    for row in (0..ports.len() / 2).rev() {
        let other = ports[row * 2];
        if other == port.key && ports[row * 2 + 1] == port.realm {
            return None;
        }
        bits = ports_bits::with_bit(bits, other);
    }
    Some(bits)
}

// The bits of the keys that a place's plugin offers, or nothing if it offers the port.
fn keys_without(m: &[u64; WORDS], place: usize, port: Port) -> Option<u64>
    ensures { result ≡ keys_without m.now (place % places) port }
{
    let anchor = memory_lists::anchor(m, place);
    let same = port == anchor;
    if same {
        return None;
    }
    let word = ports_bits::with_bit(0, anchor.key);
    bits_without(word, memory_lists::provision_words(m, place), port)
}

// Whether a place's plugin provides the port. A word has the bits of the keys that its place may offer: at first all, and once the place
// was looked at in vain those that it offers.
fn offers(m: &[u64; WORDS], table: &mut [u64; PLACES], place: usize, port: Port) -> bool
    requires { place < places }
    ensures { (result ≡ offers_by m.now (word table.old place) place port)
        × (table.new ≡ set table.old place
        (kept_by m.now (word table.old place) place port)) }
{
    if !ports_bits::has_bit(table[place], port.key) {
        return false;
    }
    if !memory::is_taken(m, place) {
        table[place] = 0;
        return false;
    }
    let Some(keys) = keys_without(m, place, port) else {
        return true;
    };
    table[place] = keys;
    false
}

// The place of a port's provider, and the keys of those that were looked at on the way.
pub fn provider_by(m: &[u64; WORDS], table: &mut [u64; PLACES], port: Port) -> Option<usize>
    ensures { (result ≡ provider_by m.now table.old port)
        × (table.new ≡ table_by m.now table.old port) }
{
    for i in 0..PLACES {
        if offers(m, table, i, port) {
            return Some(i);
        }
    }
    None
}
