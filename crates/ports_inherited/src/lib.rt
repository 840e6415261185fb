// Document 01, "Dependency list", as document 02 [3] amends it.
#![tactic(auto)]

ghost use Rattle.std.specs.Prelude.{◌≡◌, [], ◌+◌, take};
ghost use Rattle.rules.specs.Basics.{pick};
ghost use Rattle.rules.specs.Holds.{port, is_in};
ghost use Rattle.rules.specs.Ports.{pairs};
ghost use Rattle.ports_bits.specs.Bits.{has_bit};
ghost use Rattle.ports_realms.specs.Halving.{reached_with};
ghost use Rattle.rules.specs.Dependencies.{own_ports, dependency_list};
ghost use Rattle.rules.specs.Limits.{max_dependency_keys, max_dependencies};
ghost use Rattle.ports_resolved.specs.Filled.{filled};
ghost use Rattle.ports_resolved.specs.Keys.{list_room};
ghost use Rattle.ports_inherited.specs.Blocks.{fitted};

use ports_resolved::LIST_ROOM;
use rules::{Port, limits};

// The count that says that a list is too long.
pub const LONGER: usize = limits::DEPENDENCIES + 1;

// A finished dependency list of at most 48 ports, or that it is longer.
#[derive(Clone, Copy)]
pub struct Dependencies {
    pub count: usize,
    pub ports: [u64; LIST_ROOM],
}

// Whether a port is one of the new plugin's own: its provisions first, then its anchor.
fn is_own(provisions: &[u64], anchor: Port, port: Port) -> bool
    ensures { result ≡ is_in port (own_ports (pairs provisions.now) anchor) }
{
    ports::has_port(provisions, port) || (port.key == anchor.key && port.realm == anchor.realm)
}

// Where the comparison with the list so far begins: a key that lacks its bit is compared with none of it.
fn compared_from(bits: u64, key: u64, count: usize) -> usize
    ensures { result ≡ pick (has_bit bits key) 0 count }
{
    if ports_bits::has_bit(bits, key) {
        0
    } else {
        count
    }
}

// The list of a new plugin: the first 16 declared keys resolved, then for each port of the parent's list itself and its
// key resolved again, each appended if it is neither one of the plugin's own nor in the list so far. A port that resolves to
// itself takes both turns at once. Where nothing is inherited, no word of key bits is made.
pub fn dependency_list(
    other: u64,
    anchor: Port,
    rows: &[u64],
    keys: &[u64],
    provisions: &[u64],
    parents: &[u64],
) -> Dependencies
    ensures { result ≡ fitted (dependency_list (reached_with other rows.now) (pairs provisions.now) anchor
        (take max_dependency_keys keys.now) (pairs parents.now)) }
{
    let mut list = [0u64; LIST_ROOM];
    let mut count = ports_resolved::declared(other, rows, keys, &mut list);
    if parents.len() < 2 {
        return Dependencies { count, ports: list };
    }
    let mut bits = ports_bits::key_word(0, &list[..count * 2]);
    let mut c: usize = 0;
    'next: while c / 2 < parents.len() / 2 {
        let at = c / 2 * 2;
        let key = parents[at];
        let turn = ports_resolved::candidate(other, c % 2, key, parents[at + 1], rows);
        let realm = turn.realm;
        c += turn.turns;
        if is_own(provisions, anchor, Port { key, realm }) {
            continue;
        }
        for k in compared_from(bits, key, count)..count {
            if list[k * 2] == key && list[k * 2 + 1] == realm {
                continue 'next;
            }
        }
        if count == limits::DEPENDENCIES {
            return longer();
        }
        list[count * 2] = key;
        list[count * 2 + 1] = realm;
        bits = ports_bits::with_bit(bits, key);
        count += 1;
    }
    Dependencies { count, ports: list }
}

// What a list of more than 48 ports answers.
fn longer() -> Dependencies
    ensures { (result.count ≡ max_dependencies + 1) × (result.ports ≡ filled list_room []) }
{
    Dependencies {
        count: LONGER,
        ports: [0u64; LIST_ROOM],
    }
}
