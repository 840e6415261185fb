// Document 02 [4], of a text's ports: realms that keys resolve to, and dependency lists that document 01's rule gives.
#![tactic(auto)]

ghost use Rattle.std.specs.Prelude.{◌≡◌, ◌≤◌, length, take};
ghost use Rattle.rules.specs.Basics.{all};
ghost use Rattle.rules.specs.Holds.{port};
ghost use Rattle.rules.specs.Ports.{pairs, same_ports};
ghost use Rattle.rules.specs.Dependencies.{dependency_list};
ghost use Rattle.rules.specs.Conditions.{resolved_in};
ghost use Rattle.rules.specs.Limits.{max_dependency_keys, max_dependencies};
ghost use Rattle.ports_realms.specs.Halving.{reached_with};
ghost use Rattle.ports_given.specs.Given.{given_list, Most};

use rules::{Port, limits};

const KEYS: usize = limits::DEPENDENCY_KEYS;

// The keys of so many ports in front of a dependency list.
#[derive(Clone, Copy)]
struct FrontKeys {
    count: usize,
    keys: [u64; KEYS],
}

// Whether a port has the realm that its key resolves to.
fn is_resolved(other: u64, rows: &[u64], port: Port) -> bool
    ensures { result ≡ resolved_in (reached_with other rows.now) port }
{
    let q = ports_realms::resolve(rows, Port::new(port.key, other));
    q.realm == port.realm
}

// Whether each port has the realm that its key resolves to.
pub fn resolved(other: u64, rows: &[u64], ports: &[u64]) -> bool
    ensures { result ≡ all (resolved_in (reached_with other rows.now)) (pairs ports.now) }
{
    for port in ports.chunks_exact(2) {
        if !is_resolved(
            other,
            rows,
            Port {
                key: port[0],
                realm: port[1],
            },
        ) {
            return false;
        }
    }
    true
}

// So many words from the first on, or all that there are.
fn first_words(words: &[u64], most: usize) -> &[u64]
    ensures { result.now ≡ take most words.now }
{
    &words[..words.len().min(most)]
}

// The keys of the most ports in front, at most 16, that have the realm their key resolves to and different keys.
fn keys_in_front(other: u64, rows: &[u64], list: &[u64]) -> FrontKeys
    ensures { Most (reached_with other rows.now) (pairs list.now) result }
{
    let mut keys = [0u64; KEYS];
    let most = (list.len() / 2).min(KEYS);
    for n in 0..most {
        let key = list[n * 2];
        if !is_resolved(
            other,
            rows,
            Port {
                key,
                realm: list[n * 2 + 1],
            },
        ) || ports::has_number(&keys[..n], key)
        {
            return FrontKeys { count: n, keys };
        }
        keys[n] = key;
    }
    FrontKeys { count: most, keys }
}

// Whether the rule gives this list, of at most 48 ports, from these declared keys.
fn gives(
    other: u64,
    anchor: Port,
    rows: &[u64],
    keys: &[u64],
    provisions: &[u64],
    parents: &[u64],
    list: &[u64],
) -> bool
    requires keys_fit { length keys.now ≤ max_dependency_keys }
    requires list_fits { length (pairs list.now) ≤ max_dependencies }
    ensures { result ≡ same_ports (dependency_list (reached_with other rows.now) (pairs provisions.now) anchor
        keys.now (pairs parents.now)) (pairs list.now) }
{
    let made = ports_inherited::dependency_list(other, anchor, rows, keys, provisions, parents);
    if limits::DEPENDENCIES < made.count {
        return false;
    }
    let ruled = first_words(&made.ports, made.count * 2);
    ports::same_ports(ruled, list)
}

// Whether the rule gives the list from the parent's list and some at most 16 different declared keys. Declared ports come first in a
// list, so the keys of its first ports are tried, from the most that can be declared down to none.
pub fn given(
    other: u64,
    anchor: Port,
    rows: &[u64],
    provisions: &[u64],
    parents: &[u64],
    list: &[u64],
) -> bool
    ensures { result ≡ given_list (reached_with other rows.now) (pairs provisions.now) anchor
        (pairs parents.now) (pairs list.now) }
{
    if limits::DEPENDENCIES < list.len() / 2 {
        return false;
    }
    let most = keys_in_front(other, rows, list);
    for count in (0..=most.count).rev() {
        let keys = first_words(&most.keys, count);
        if gives(other, anchor, rows, keys, provisions, parents, list) {
            return true;
        }
    }
    false
}
