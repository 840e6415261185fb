// Document 01, "Ports and realms", with document 02 [5]'s editions: realm lists, and keys looked up in them by halving. A realm list
// is edition, default, key, realm, key, realm; its rows are the numbers behind the first two. Every function takes any list.
#![tactic(auto)]

ghost use Rattle.std.specs.Prelude.{◌≡◌, get_or};
ghost use Rattle.rules.specs.Outcomes.{answer_of};
ghost use Rattle.rules.specs.Answers.{verdict};
ghost use Rattle.rules.specs.Ports.{rows_in, realm_list, bad_edition, bad_realms, realm_checks, realms_of, resolve_in, resolve_key, pairs};
ghost use Rattle.ports_realms.specs.Answers.{resolved_answer, searched};
ghost use Rattle.ports_realms.specs.Halving.{reached};

use rules::{Edition, Port, Refusal, limits};

// The most numbers of a realm list's rows.
const REALM_NUMBERS: usize = limits::REALM_ROWS * 2;

// A port that was looked up, and how many keys were compared.
#[derive(Clone, Copy)]
struct Lookup {
    port: Port,
    comparisons: usize,
}

// The number at a place, 0 behind the last.
fn number_at(realms: &[u64], place: usize) -> u64
    ensures { result ≡ get_or realms.now place 0 }
{
    realms.get(place).copied().unwrap_or(0)
}

// A list's edition, with its default in edition 2.
pub fn edition(realms: &[u64]) -> Edition
    ensures { result ≡ (realm_list realms.now).edition }
{
    match number_at(realms, 0) {
        2 => Edition::Second(number_at(realms, 1)),
        _ => Edition::First,
    }
}

// The realm that a list gives absent keys.
pub fn default_realm(realms: &[u64]) -> u64
    ensures { result ≡ (realms_of realms.now).other }
{
    edition(realms).default()
}

// A list's rows.
pub fn rows(realms: &[u64]) -> &[u64]
    ensures { result.now ≡ rows_in realms.now }
{
    realms.get(2..).unwrap_or(&[])
}

// Row 26: another edition than 1 and 2, or a list that does not name one and a default.
fn bad_edition(realms: &[u64]) -> bool
    ensures { result ≡ bad_edition realms.now }
{
    realms.len() < 2 || !matches!(realms[0], 1 | 2)
}

// Row 4, of the rows: odd length, over 16 rows, or keys that do not rise strictly.
pub fn bad_realms(rows: &[u64]) -> bool
    ensures { result ≡ bad_realms rows.now }
{
    if rows.len() % 2 != 0 || REALM_NUMBERS < rows.len() {
        return true;
    }
    for row in 1..rows.len() / 2 {
        if rows[row * 2] <= rows[row * 2 - 2] {
            return true;
        }
    }
    false
}

// 26, 4.
pub fn list_verdict(realms: &[u64]) -> Result<(), Refusal>
    ensures { result ≡ verdict (realm_checks realms.now) }
{
    if bad_edition(realms) {
        return Err(Refusal::BadEdition);
    }
    if bad_realms(rows(realms)) {
        return Err(Refusal::BadRealms);
    }
    Ok(())
}

// The row of the fallback's key, or the fallback, by halving: the middle one of the rows that are left says which of them stay,
// until one is left. With it, how many keys were compared.
fn search(rows: &[u64], fallback: Port) -> Lookup
    ensures { result ≡ searched fallback.realm (pairs rows.now) fallback.key }
{
    let mut at: usize = 0;
    let mut left = rows.len() / 2;
    let mut half = left / 2;
    let mut comparisons: usize = 0;
    while 0 < half {
        if rows[at + half * 2] <= fallback.key {
            at += half * 2;
        }
        comparisons += 1;
        left -= half;
        half = left / 2;
    }
    if left == 0 {
        return Lookup {
            port: fallback,
            comparisons,
        };
    }
    comparisons += 1;
    if rows[at] != fallback.key {
        return Lookup {
            port: fallback,
            comparisons,
        };
    }
    Lookup {
        port: Port::new(fallback.key, rows[at + 1]),
        comparisons,
    }
}

// The row of the fallback's key where the list has one, else the fallback itself.
pub fn resolve(rows: &[u64], fallback: Port) -> Port
    ensures { result ≡ resolve_in fallback.realm (reached (pairs rows.now)) fallback.key }
{
    search(rows, fallback).port
}

// A key looked up in a lent list: 26, 4, then its port.
pub fn resolve_key(realms: &[u64], key: u64) -> Result<Port, Refusal>
    ensures { resolved_answer result ≡ answer_of (resolve_key realms.now key) }
{
    list_verdict(realms)?;
    let fallback = edition(realms).absent(key);
    Ok(resolve(rows(realms), fallback))
}
