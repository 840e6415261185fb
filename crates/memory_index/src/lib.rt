// A port's provider, looked up for many plugins in one operation: an index has, for each remainder of a key by 64, the places whose
// plugins offer such a key, a bit for each. A lookup reads the ports of these places alone.
#![tactic(auto)]

ghost use Rattle.std.specs.Prelude.{◌≡◌, ◌<◌, ◌^◌};
ghost use Rattle.rules.specs.Ports.{pairs};
ghost use Rattle.memory.specs.Layout.{places};
ghost use Rattle.memory_index.specs.Index.{remainders, word_for, noted, index_of, provider_by};

use memory::WORDS;
use memory::layout::PLACES;
use rules::Port;

mod lookup;

pub use lookup::Index;

pub const REMAINDERS: usize = 64;

// The word of a key: its remainder, with that of its quotient, so that keys a power of 2 apart do not share one.
fn word_for(key: u64) -> usize
    ensures { (result ≡ word_for key) × (result < remainders) }
{
    ((key ^ key / 64) % 64) as usize
}

// A place gets its bit in the word of each port's key.
fn note(index: &mut [u32; REMAINDERS], place: usize, ports: &[u64])
    requires { place < places }
    ensures { index.new ≡ noted index.old place (pairs ports.now) }
{
    let bit: u32 = 1 << place;
    for row in (0..ports.len() / 2).rev() {
        let at = word_for(ports[row * 2]);
        index[at] = index[at] | bit;
    }
}

// The words of an index of all places that are taken.
pub fn index(memory: &[u64; WORDS]) -> [u32; REMAINDERS]
    ensures { result ≡ index_of memory.now }
{
    let mut words = [0u32; REMAINDERS];
    for i in 0..PLACES {
        if memory::is_taken(memory, i) {
            note(&mut words, i, memory_providers::offered_words(memory, i));
        }
    }
    words
}

// What the type of a word says of it, for a proof. It compiles to nothing.
fn bounded(word: u32) -> u32
    ensures { (result ≡ word) × (result < 2 ^ 32) }
{
    word
}

// The first of the places that an index's words have for the key whose plugin provides the port, whatever index that is.
pub fn provider_by(memory: &[u64; WORDS], index: &[u32; REMAINDERS], port: Port) -> Option<usize>
    ensures { result ≡ provider_by memory.now index.now port }
{
    let mut left = bounded(index[word_for(port.key)]);
    while left != 0 {
        let i = u32::trailing_zeros(left) as usize;
        if memory_providers::provides(memory, i, port) {
            return Some(i);
        }
        left = left & (left - 1);
    }
    None
}
