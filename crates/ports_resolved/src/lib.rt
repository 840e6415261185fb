// What keys resolve to: the ports that a registration claims, and those of document 01's "Dependency list", the declared ones and
// the candidates of the parent's list.
#![tactic(auto)]

ghost use Rattle.std.specs.Prelude.{◌≡◌};
ghost use Rattle.rules.specs.Ports.{pairs};
ghost use Rattle.ports_realms.specs.Halving.{reached};
ghost use Rattle.ports_resolved.specs.Keys.{keys_repeat, claims_of, declared_of, candidate_of};
ghost use Rattle.ports_resolved.specs.Stored.{Stores};

use rules::{Port, limits};

// The anchor and the provisions.
const CLAIMS: usize = limits::PROVISION_KEYS + 1;

// Room for them, as key and realm.
pub const CLAIM_ROOM: usize = CLAIMS * 2;

// Room for a finished dependency list, as key and realm.
pub const LIST_ROOM: usize = limits::DEPENDENCIES * 2;

// The anchor, then the resolved provisions.
#[derive(Clone, Copy)]
pub struct Claimed {
    pub count: usize,
    pub ports: [u64; CLAIM_ROOM],
}

// Whether a key stands twice among declared keys.
pub fn repeated_key(keys: &[u64]) -> bool
    ensures { result ≡ keys_repeat keys.now }
{
    for (i, key) in keys.iter().enumerate() {
        if keys[i + 1..].contains(key) {
            return true;
        }
    }
    false
}

// The anchor and the ports of the first 15 provision keys.
pub fn claims(other: u64, anchor: Port, rows: &[u64], keys: &[u64]) -> Claimed
    ensures { result ≡ claims_of other (reached (pairs rows.now)) anchor keys.now }
{
    let mut list = [0u64; CLAIM_ROOM];
    list[0] = anchor.key;
    list[1] = anchor.realm;
    let provisions = keys.len().min(limits::PROVISION_KEYS);
    for i in 0..provisions {
        let q = ports_realms::resolve(rows, Port::new(keys[i], other));
        list[i * 2 + 2] = q.key;
        list[i * 2 + 3] = q.realm;
    }
    let count = provisions + 1;
    Claimed { count, ports: list }
}

// The first 16 declared keys, resolved, in the front of an array that a finished list fits into; their count.
pub fn declared(other: u64, rows: &[u64], keys: &[u64], list: &mut [u64; LIST_ROOM]) -> usize
    ensures { Stores (declared_of other (reached (pairs rows.now)) keys.now) list.old result list.new }
{
    let count = keys.len().min(limits::DEPENDENCY_KEYS);
    for i in 0..count {
        let q = ports_realms::resolve(rows, Port::new(keys[i], other));
        list[i * 2] = q.key;
        list[i * 2 + 1] = q.realm;
    }
    count
}

// A candidate's realm, and how many turns it takes: where a port resolves to itself, its second turn is known from the first.
#[derive(Clone, Copy)]
pub struct Turn {
    pub realm: u64,
    pub turns: usize,
}

// The candidate of a port of the parent's list: at turn 0 the port itself, else its key resolved again.
pub fn candidate(other: u64, turn: usize, key: u64, realm: u64, rows: &[u64]) -> Turn
    ensures { result ≡ candidate_of other (reached (pairs rows.now)) turn key realm }
{
    let q = ports_realms::resolve(rows, Port::new(key, other));
    let again = turn != 0;
    if again {
        return Turn {
            realm: q.realm,
            turns: 1,
        };
    }
    if q.realm == realm {
        return Turn { realm, turns: 2 };
    }
    Turn { realm, turns: 1 }
}
