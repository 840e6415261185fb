// A plugin's lists, read off its rows. Every function takes any words; a place is read modulo 32.
#![tactic(auto)]

ghost use Rattle.std.specs.Prelude.{◌≡◌, ◌%◌, min};
ghost use Rattle.memory.specs.Layout.{part, start_at, deps_at, provs_at, realms_at, dep_part, prov_part, realm_part, places};
ghost use Rattle.memory.specs.View.{anchor_at};

use memory::layout::{PLACE_WORDS, PLACES, ROW_WORDS, ROWS_START};
use memory::{WORDS, layout};
use rules::{Port, limits};

// Some words from one on, as many as there are.
pub fn some_words(m: &[u64], from: usize, count: usize) -> &[u64]
    ensures { result.now ≡ part m.now from count }
{
    let rest = m.get(from..).unwrap_or(&[]);
    &rest[..count.min(rest.len())]
}

// A count, up to its limit.
pub fn at_most(n: usize, limit: usize) -> usize
    ensures { result ≡ min n limit }
{
    n.min(limit)
}

// The first row of a place.
pub fn start(m: &[u64; WORDS], place: usize) -> usize
    ensures { result ≡ start_at m.now (place % places) }
{
    let b = place % PLACES * PLACE_WORDS;
    m[b + layout::FIRST_ROW] as usize % limits::ROWS
}

// How many dependencies, provisions and realm rows a place has.
pub fn dependencies(m: &[u64; WORDS], place: usize) -> usize
    ensures { result ≡ deps_at m.now (place % places) }
{
    let b = place % PLACES * PLACE_WORDS;
    at_most(m[b + layout::DEPENDENCIES] as usize, limits::DEPENDENCIES)
}

pub fn provisions(m: &[u64; WORDS], place: usize) -> usize
    ensures { result ≡ provs_at m.now (place % places) }
{
    let b = place % PLACES * PLACE_WORDS;
    m[b + layout::PROVISIONS] as usize % (limits::PROVISION_KEYS + 1)
}

pub fn realm_rows(m: &[u64; WORDS], place: usize) -> usize
    ensures { result ≡ realms_at m.now (place % places) }
{
    let b = place % PLACES * PLACE_WORDS;
    at_most(m[b + layout::REALMS] as usize, limits::REALM_ROWS)
}

// The words of a plugin's dependencies, provisions and realm list, which edition and default lead.
pub fn dependency_words(m: &[u64; WORDS], place: usize) -> &[u64]
    ensures { result.now ≡ dep_part m.now (place % places) }
{
    let from = start(m, place) * ROW_WORDS + ROWS_START;
    let count = dependencies(m, place) * ROW_WORDS;
    some_words(m, from, count)
}

pub fn provision_words(m: &[u64; WORDS], place: usize) -> &[u64]
    ensures { result.now ≡ prov_part m.now (place % places) }
{
    let from = (start(m, place) + dependencies(m, place) + 1) * ROW_WORDS + ROWS_START;
    let count = provisions(m, place) * ROW_WORDS;
    some_words(m, from, count)
}

pub fn realm_words(m: &[u64; WORDS], place: usize) -> &[u64]
    ensures { result.now ≡ realm_part m.now (place % places) }
{
    let from = place % PLACES * PLACE_WORDS + layout::EDITION;
    let count = (realm_rows(m, place) + 1) * ROW_WORDS;
    some_words(m, from, count)
}

// The anchor stands between the dependencies and the provisions.
pub fn anchor(m: &[u64; WORDS], place: usize) -> Port
    ensures { result ≡ anchor_at m.now (place % places) }
{
    let a = (start(m, place) + dependencies(m, place)) * ROW_WORDS + ROWS_START;
    Port::new(m[a], m[a + 1])
}
