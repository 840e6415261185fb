// Document 02 [4]: all provisions and anchors of all plugins are different ports.
#![tactic(auto)]

ghost use Rattle.std.specs.Prelude.{◌≡◌, ◌&&◌, ◌++◌, ◌+◌, ◌<◌};
ghost use Rattle.rules.specs.Holds.{is_in, plugins};
ghost use Rattle.rules.specs.Ports.{pairs};
ghost use Rattle.rules.specs.Conditions.{ports_differ};
ghost use Rattle.memory.specs.Layout.{places};
ghost use Rattle.memory.specs.View.{view};
ghost use Rattle.registry_claims.specs.Seen.{seen, see};
ghost use Rattle.registry_claims.specs.Behind.{claims_from, Noted, Differs};

use memory::WORDS;
use memory::layout::PLACES;
use rules::Port;

// The claimed keys have a bit for each remainder: by a prime, so that keys a power of 2 apart do not share one.
const REMAINDERS: u64 = 4093;

const KEY_WORDS: usize = 64;

// Whether a key's bit is set.
fn bit_seen(keys: &[u64; KEY_WORDS], key: u64) -> bool
    ensures { result ≡ seen keys.now key }
{
    let bit = key % REMAINDERS;
    ports_bits::has_bit(keys[(bit / 64) as usize], bit)
}

// A key's bit is set.
fn see(keys: &mut [u64; KEY_WORDS], key: u64)
    ensures { keys.new ≡ see keys.old key }
{
    let bit = key % REMAINDERS;
    let at = (bit / 64) as usize;
    keys[at] = ports_bits::with_bit(keys[at], bit);
}

// Whether a plugin from this place on has the port as provision or anchor.
fn claimed_behind(m: &[u64; WORDS], place: usize, port: Port) -> bool
    ensures { result ≡ is_in port (claims_from m.now place) }
{
    for i in place..PLACES {
        if memory::is_taken(m, i) && memory_providers::provides(m, i, port) {
            return true;
        }
    }
    false
}

// Whether a port stands in these rows or is claimed from a place on. A key that lacks its bit is not looked for.
fn is_claimed(
    m: &[u64; WORDS],
    place: usize,
    rows: &[u64],
    keys: &[u64; KEY_WORDS],
    port: Port,
) -> bool
    ensures { result ≡ (seen keys.now port.key && is_in port (pairs rows.now ++ claims_from m.now place)) }
{
    bit_seen(keys, port.key) && (ports::has_port(rows, port) || claimed_behind(m, place, port))
}

// Whether the ports of a place's plugin differ from each other and from those behind; their keys are then seen too.
fn place_differs(m: &[u64; WORDS], place: usize, keys: &mut [u64; KEY_WORDS]) -> bool
    requires { (place < places) × Noted keys.old (claims_from m.now (place + 1)) }
    ensures { Differs m.now place keys.new result }
{
    if !memory::is_taken(m, place) {
        return true;
    }
    let ports = memory_providers::offered_words(m, place);
    for row in (0..ports.len() / 2).rev() {
        let at = row * 2;
        let port = Port {
            key: ports[at],
            realm: ports[at + 1],
        };
        if is_claimed(m, place + 1, &ports[at + 2..], keys, port) {
            return false;
        }
        see(keys, port.key);
    }
    true
}

// From the last place to the first, each place's rows from the last to the first: a port is looked for among those behind it.
pub fn differ(m: &[u64; WORDS]) -> bool
    ensures { result ≡ ports_differ (plugins (view m.now)) }
{
    let mut keys = [0u64; KEY_WORDS];
    for i in (0..PLACES).rev() {
        if !place_differs(m, i, &mut keys) {
            return false;
        }
    }
    true
}
