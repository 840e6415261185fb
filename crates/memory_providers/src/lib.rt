// A port's provider is the registered plugin that has it as provision or anchor.
#![tactic(auto)]

ghost use Rattle.std.specs.Prelude.{◌≡◌, ◌&&◌, ◌<◌, ◌%◌};
ghost use Rattle.rules.specs.Basics.{any, is_some};
ghost use Rattle.rules.specs.Holds.{port, provides, provider};
ghost use Rattle.rules.specs.Ports.{pairs};
ghost use Rattle.memory.specs.Layout.{taken, places};
ghost use Rattle.memory.specs.View.{plugin_at, view};
ghost use Rattle.memory_providers.specs.Providers.{provider_at, offered_part, no_bits, key_bits, wanted};

use memory::WORDS;
use memory::layout::{PLACES, ROW_WORDS, ROWS_START};
use rules::Port;

// The claimed keys: a bit for each key's remainder by 64, and one for that of its quotient by 64. Two plugins' ports rarely share both.
#[derive(Clone, Copy)]
pub struct KeyBits {
    pub low: u64,
    pub high: u64,
}

// Whether the plugin of a place has the port as provision or anchor.
pub fn provides(m: &[u64; WORDS], place: usize, port: Port) -> bool
    ensures { result ≡ provides (plugin_at m.now (place % places)) port }
{
    let anchor = memory_lists::anchor(m, place);
    let same = port == anchor;
    same || ports::has_port(memory_lists::provision_words(m, place), port)
}

// Whether this place is taken and its plugin provides the port.
fn offers(m: &[u64; WORDS], place: usize, port: Port) -> bool
    requires { place < places }
    ensures { result ≡ (taken m.now place && provides (plugin_at m.now place) port) }
{
    memory::is_taken(m, place) && provides(m, place, port)
}

// The place of a port's provider.
pub fn provider(m: &[u64; WORDS], port: Port) -> Option<usize>
    ensures { result ≡ provider_at m.now port }
{
    for i in 0..PLACES {
        if offers(m, i, port) {
            return Some(i);
        }
    }
    None
}

// The anchor's words and, right behind it, those of the provisions.
pub fn offered_words(m: &[u64; WORDS], place: usize) -> &[u64]
    ensures { result.now ≡ offered_part m.now (place % places) }
{
    let from = (memory_lists::start(m, place) + memory_lists::dependencies(m, place)) * ROW_WORDS
        + ROWS_START;
    let count = (memory_lists::provisions(m, place) + 1) * ROW_WORDS;
    memory_lists::some_words(m, from, count)
}

// The bits of the keys of a list of ports.
pub fn key_bits(claims: &[u64]) -> KeyBits
    ensures { result ≡ key_bits no_bits (pairs claims.now) }
{
    let mut low: u64 = 0;
    let mut high: u64 = 0;
    for port in claims.chunks_exact(2) {
        low = ports_bits::with_bit(low, port[0]);
        high = ports_bits::with_bit(high, port[0] / 64);
    }
    KeyBits { low, high }
}

// Whether a port is claimed; a key that lacks one of its bits is not looked for.
fn is_claimed(bits: KeyBits, port: Port, claims: &[u64]) -> bool
    ensures { result ≡ wanted bits (pairs claims.now) port }
{
    ports_bits::has_bit(bits.low, port.key)
        && ports_bits::has_bit(bits.high, port.key / 64)
        && ports::has_port(claims, port)
}

// Whether one of the offered ports is claimed.
pub fn meets(bits: KeyBits, claims: &[u64], offered: &[u64]) -> bool
    ensures { result ≡ any (λ q. wanted bits (pairs claims.now) q) (pairs offered.now) }
{
    for pair in offered.chunks_exact(2) {
        if is_claimed(
            bits,
            Port {
                key: pair[0],
                realm: pair[1],
            },
            claims,
        ) {
            return true;
        }
    }
    false
}

// Whether this place is taken and one of the ports of its plugin is claimed.
fn offers_one(m: &[u64; WORDS], place: usize, bits: KeyBits, claims: &[u64]) -> bool
    requires { place < places }
    ensures { result ≡ (taken m.now place
        && any (λ q. wanted bits (pairs claims.now) q) (pairs (offered_part m.now place))) }
{
    memory::is_taken(m, place) && meets(bits, claims, offered_words(m, place))
}

// Whether one of the claimed ports has a provider. Each place's rows are read once, for all claims; where no place is taken, no claim is read.
pub fn one_provided(m: &[u64; WORDS], claims: &[u64]) -> bool
    ensures { result ≡ any (λ q. is_some (provider (view m.now) q)) (pairs claims.now) }
{
    if memory::occupied(m) == 0 {
        return false;
    }
    let bits = key_bits(claims);
    for i in 0..PLACES {
        if offers_one(m, i, bits, claims) {
            return true;
        }
    }
    false
}
