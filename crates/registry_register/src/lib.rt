// Document 01, "Registration", over the registry's memory: nothing is written before the last check has passed.
#![tactic(auto)]

ghost use Rattle.std.specs.Prelude.{◌≡◌, ◌≢◌, ◌*◌, ◌-◌, take};
ghost use Rattle.rules.specs.Outcomes.{Meets};
ghost use Rattle.rules.specs.Basics.{last};
ghost use Rattle.rules.specs.Holds.{rows_in_use};
ghost use Rattle.rules.specs.Registration.{register};
ghost use Rattle.rules.specs.Answers.{number_answer};
ghost use Rattle.memory.specs.Layout.{word, next_word};
ghost use Rattle.memory.specs.View.{view};
ghost use Rattle.registry_register.specs.Parts.{dependencies_at, tag_of, word_of, claims_in, list_in};
ghost use Rattle.registry_register.specs.Written.{definition, new_entry, Settles, added_to};

use memory::WORDS;
use memory_entry::Entry;
use ports_inherited::Dependencies;
use ports_resolved::Claimed;
use rules::{Edition, Port, Refusal};

mod checks;

pub use checks::{claim_verdict, early_verdict, late_verdict};

// The dependency rows of the parent at this place; none without a parent.
fn inherited(m: &[u64; WORDS], parent: Option<usize>) -> &[u64]
    ensures { result.now ≡ dependencies_at m.now parent }
{
    let Some(at) = parent else {
        return &[];
    };
    memory_lists::dependency_words(m, at)
}

// The first rows of a list of ports, as many as there are.
fn first_rows(ports: &[u64], count: usize) -> &[u64]
    ensures { result.now ≡ take (count * 2) ports.now }
{
    let fewer = ports.len() / 2 < count;
    if fewer {
        return ports;
    }
    &ports[..count * 2]
}

// The provisions among the claims, which the anchor leads.
fn behind_anchor(claims: usize) -> usize
    ensures { result ≡ claims - 1 }
{
    claims.saturating_sub(1)
}

// A plugin without a parent has tag 0.
fn parent_tag(parent: Option<u64>) -> u64
    ensures { result ≡ tag_of parent }
{
    parent.is_some() as u64
}

fn parent_word(parent: Option<u64>) -> u64
    ensures { result ≡ word_of parent }
{
    parent.unwrap_or(0)
}

// What is written of the new plugin beside its lists.
fn entry(
    m: &[u64; WORDS],
    parent: Option<u64>,
    payload: u64,
    edition: Edition,
    start: usize,
    dependencies: usize,
    provisions: usize,
    realms: usize,
) -> Entry
    requires not_last { word m.now next_word ≢ last }
    requires at_end { start ≡ rows_in_use (view m.now) }
    ensures { result ≡ new_entry m.now parent payload edition dependencies provisions realms }
{
    let id = memory::next_id(m);
    Entry {
        id,
        tag: parent_tag(parent),
        parent: parent_word(parent),
        payload,
        start: start as u64,
        dependencies: dependencies as u64,
        provisions: provisions as u64,
        realms: realms as u64,
        edition: edition.number(),
        default: edition.default(),
        next: id + 1,
    }
}

// The anchor and the ports that its provisions claim.
fn claimed(anchor: Port, realms: &[u64], provisions: &[u64]) -> Claimed
    ensures { result ≡ claims_in realms.now anchor provisions.now }
{
    let other = ports_realms::default_realm(realms);
    ports_resolved::claims(other, anchor, ports_realms::rows(realms), provisions)
}

// Its dependency list under a parent at this place; the provisions stand behind the anchor.
fn listed(
    m: &[u64; WORDS],
    above: Option<usize>,
    anchor: Port,
    realms: &[u64],
    dependencies: &[u64],
    claims: &[u64],
) -> Dependencies
    ensures { result ≡ list_in m.now above anchor realms.now dependencies.now claims.now }
{
    ports_inherited::dependency_list(
        ports_realms::default_realm(realms),
        anchor,
        ports_realms::rows(realms),
        dependencies,
        memory_lists::some_words(claims, 2, claims.len()),
        inherited(m, above),
    )
}

// 9, 10, 11, 12; then the plugin goes to the lowest free place.
fn settle(
    m: &mut [u64; WORDS],
    parent: Option<u64>,
    payload: u64,
    count: usize,
    realms: &[u64],
    dependencies: &[u64],
    claims: &[u64],
) -> Result<u64, Refusal>
    ensures { Settles m.old parent payload count
        dependencies.now claims.now realms.now (number_answer result) m.new }
{
    let claimed = claims.len() / 2;
    let used = memory_places::rows_in_use(m);
    checks::late_verdict(m, used, count, claimed)?;
    let Some(at) = memory_places::lowest_free(m) else {
        return Err(Refusal::Full);
    };
    let rows = ports_realms::rows(realms);
    let e = entry(
        m,
        parent,
        payload,
        ports_realms::edition(realms),
        used,
        count,
        behind_anchor(claimed),
        rows.len() / 2,
    );
    memory_entry::fill_place(m, at, e, rows, dependencies, claims);
    Ok(e.id)
}

// 26, 4, 5, the parent's 1, 2, 3, then 6; 7, 8; 9, 10, 11, 12. It answers the new id.
pub fn register(
    m: &mut [u64; WORDS],
    parent: Option<u64>,
    anchor: Port,
    payload: u64,
    realms: &[u64],
    dependencies: &[u64],
    provisions: &[u64],
) -> Result<u64, Refusal>
    ensures { Meets added_to (register (view m.old)
        (definition parent anchor realms.now dependencies.now provisions.now payload))
        m.old (number_answer result) m.new }
{
    let above = checks::early_verdict(m, parent, realms, dependencies, provisions)?;
    let own = claimed(anchor, realms, provisions);
    let claims = first_rows(&own.ports, own.count);
    checks::claim_verdict(m, claims)?;
    let list = listed(m, above, anchor, realms, dependencies, claims);
    settle(
        m,
        parent,
        payload,
        list.count,
        realms,
        first_rows(&list.ports, list.count),
        claims,
    )
}
