// Document 02 [6]: the checks of a set of ids, and the checker of an order. The registry isn't changed.
#![tactic(auto)]

ghost use Rattle.std.specs.Prelude.{◌≡◌, ◌&&◌};
ghost use Rattle.rules.specs.Answers.{verdict, whether_answer};
ghost use Rattle.rules.specs.Basics.{all};
ghost use Rattle.rules.specs.Holds.{is_idle};
ghost use Rattle.rules.specs.Orders.{named, in_time, supplied, can_come, set_checks, passes, check_order};
ghost use Rattle.rules.specs.Outcomes.{answer_of};
ghost use Rattle.rules.specs.Ports.{pairs};
ghost use Rattle.memory.specs.View.{view};
ghost use Rattle.registry_order.specs.Checks.{life_checks, checked_by};

use memory::{Life, WORDS};
use memory_index::Index;
use rules::{Generation, Phase, Port, Refusal};

fn is_idle(life: Life) -> bool
    ensures { result ≡ is_idle life.phase }
{
    life.phase == Phase::Idle
}

// 2, 3, 16, of a found plugin.
#[tactic(auto, unfolding(rules::specs::Answers::verdict))]
fn life_verdict(life: Life) -> Result<(), Refusal>
    ensures { result ≡ verdict (life_checks life) }
{
    if life.retired {
        return Err(Refusal::Retired);
    }
    if !is_idle(life) {
        return Err(Refusal::InvalidState);
    }
    if life.generation == Generation::LAST {
        return Err(Refusal::Exhausted);
    }
    Ok(())
}

// 1, 27, then those of its life. A repeated id is found where it was found before.
fn id_verdict(m: &[u64; WORDS], seen: u32, id: u64) -> Result<usize, Refusal>
    ensures { result ≡ checked_by m.now seen id }
{
    let at = memory::look_up(m, id)?;
    if (seen >> at) % 2 == 1 {
        return Err(Refusal::Repeated);
    }
    life_verdict(memory_life::load(m, at))?;
    Ok(at)
}

// The same of each id, in list order; the places of those before are kept, a bit for each.
pub fn set_verdict(m: &[u64; WORDS], set: &[u64]) -> Result<(), Refusal>
    ensures { result ≡ verdict (set_checks (view m.now) set.now) }
{
    let mut seen: u32 = 0;
    for id in set {
        let at = id_verdict(m, seen, *id)?;
        seen |= 1 << at;
    }
    Ok(())
}

// Whether the port's provider is Active, or one of those before.
fn is_in_time(index: &Index<'_>, before: &[u64], port: Port) -> bool
    ensures { result ≡ in_time (view index.now.memory.now) before.now port }
{
    let Some(at) = index.provider(port) else {
        return false;
    };
    registry_needs::is_active(memory_life::load(index.memory, at))
        || ports::has_number(before, memory::id(index.memory, at))
}

// Whether each port of the list is provided in time.
fn all_in_time(index: &Index<'_>, before: &[u64], list: &[u64]) -> bool
    ensures { result ≡ all (in_time (view index.now.memory.now) before.now) (pairs list.now) }
{
    for pair in list.chunks_exact(2) {
        let port = Port {
            key: pair[0],
            realm: pair[1],
        };
        if !is_in_time(index, before, port) {
            return false;
        }
    }
    true
}

// Whether every dependency of a plugin is provided by an Active one or by one of those before.
fn is_supplied(index: &Index<'_>, before: &[u64], id: u64) -> bool
    ensures { result ≡ supplied (view index.now.memory.now) before.now id }
{
    let Some(at) = memory::find(index.memory, id) else {
        return false;
    };
    all_in_time(
        index,
        before,
        memory_lists::dependency_words(index.memory, at),
    )
}

// Whether an id is the set's, is not among those before, and is supplied.
fn follows(index: &Index<'_>, set: &[u64], before: &[u64], id: u64) -> bool
    ensures { result ≡ (named id set.now && can_come (view index.now.memory.now) before.now id) }
{
    ports::has_number(set, id) && !ports::has_number(before, id) && is_supplied(index, before, id)
}

// Whether the order names the set's ids, each once, and each is supplied by those before it. One index serves all lookups.
fn is_passing(m: &[u64; WORDS], set: &[u64], order: &[u64]) -> bool
    ensures { result ≡ passes (view m.now) set.now order.now }
{
    let other_length = order.len() != set.len();
    if other_length {
        return false;
    }
    let index = Index::new(m);
    for i in 0..order.len() {
        if !follows(&index, set, &order[..i], order[i]) {
            return false;
        }
    }
    true
}

// The checker: the set's refusals, else whether the order passes.
pub fn check_order(m: &[u64; WORDS], set: &[u64], order: &[u64]) -> Result<bool, Refusal>
    ensures { whether_answer result ≡ answer_of (check_order (view m.now) set.now order.now) }
{
    set_verdict(m, set)?;
    Ok(is_passing(m, set, order))
}
