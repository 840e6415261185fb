// What a plugin needs of others, and others of it: an Active provider for each dependency, and no running plugin that depends on it.
#![tactic(auto)]

ghost use Rattle.std.specs.Prelude.{◌≡◌, ◌||◌, ◌%◌, ◌<◌};
ghost use Rattle.rules.specs.Basics.{all};
ghost use Rattle.rules.specs.Holds.{is_active, is_loading};
ghost use Rattle.rules.specs.Phases.{available, in_use};
ghost use Rattle.rules.specs.Ports.{pairs};
ghost use Rattle.memory.specs.View.{plugin_at, view};
ghost use Rattle.memory.specs.Layout.{places};
ghost use Rattle.memory_keys.specs.Known.{Known};
ghost use Rattle.registry_needs.specs.Users.{uses};

use memory::layout::{PLACES, ROW_WORDS};
use memory::{Life, WORDS};
use memory_providers::KeyBits;
use rules::{Phase, Port};

pub fn is_active(life: Life) -> bool
    ensures { result ≡ is_active life.phase }
{
    life.phase == Phase::Active
}

// Loading or Active.
pub fn is_running(life: Life) -> bool
    ensures { result ≡ (is_loading life.phase || is_active life.phase) }
{
    matches!(life.phase, Phase::Loading | Phase::Active)
}

// Whether the port's provider is Active, by a table of the keys that places offer.
fn is_available(m: &[u64; WORDS], table: &mut [u64; PLACES], port: Port) -> bool
    requires { Known m.now table.old }
    ensures { (result ≡ available (view m.now) port) × Known m.now table.new }
{
    let Some(at) = memory_keys::provider_by(m, table, port) else {
        return false;
    };
    is_active(memory_life::load(m, at))
}

// Whether each port of the list has an Active provider. The table is filled as far as the lookups go; without a port there is none.
pub fn all_available(m: &[u64; WORDS], list: &[u64]) -> bool
    ensures { result ≡ all (available (view m.now)) (pairs list.now) }
{
    if list.len() < ROW_WORDS {
        return true;
    }
    let mut table = [u64::MAX; PLACES];
    for pair in list.chunks_exact(ROW_WORDS) {
        let port = Port {
            key: pair[0],
            realm: pair[1],
        };
        if !is_available(m, &mut table, port) {
            return false;
        }
    }
    true
}

// Whether the plugin of a place runs and depends on one of the ports, by the bits of their keys.
fn is_user(m: &[u64; WORDS], user: usize, bits: KeyBits, ports: &[u64]) -> bool
    ensures { result ≡ uses bits (pairs ports.now) (plugin_at m.now (user % places)) }
{
    is_running(memory_life::load(m, user))
        && memory_providers::meets(bits, ports, memory_lists::dependency_words(m, user))
}

// Whether a Loading or Active plugin depends on a provision or the anchor of this place's: these and their bits are taken once.
pub fn in_use(m: &[u64; WORDS], place: usize) -> bool
    ensures { result ≡ in_use (view m.now) (plugin_at m.now (place % places)) }
{
    let ports = memory_providers::offered_words(m, place);
    let bits = memory_providers::key_bits(ports);
    for i in 0..PLACES {
        if memory::is_taken(m, i) && is_user(m, i, bits, ports) {
            return true;
        }
    }
    false
}
