// Document 01, "Phases": each step looks the id up once, and the table of phases and steps says where it leads.
#![tactic(auto)]

ghost use Rattle.rules.specs.Outcomes.{Meets};
ghost use Rattle.rules.specs.Phases.{begin, fail, unload};
ghost use Rattle.rules.specs.Answers.{done_answer};
ghost use Rattle.memory.specs.View.{view};
ghost use Rattle.memory.specs.Known.{stored_life};
ghost use Rattle.registry_steps.specs.Answers.{begun_answer};

use memory::WORDS;
use registry_table::{Step, Ticket};
use rules::{Generation, Refusal};

// 1, 2, phase, 16, 14; generation + 1, root Unissued; it answers a ticket.
pub fn begin(m: &mut [u64; WORDS], id: u64) -> Result<Ticket, Refusal>
    ensures { Meets stored_life (begin (view m.old) id) m.old (begun_answer result) m.new }
{
    let Some(at) = memory::find(m, id) else {
        return Err(Refusal::Unknown);
    };
    let life = memory_life::load(m, at);
    if life.retired {
        return Err(Refusal::Retired);
    }
    let next = registry_table::next(life.phase, Step::Begin).ok_or(Refusal::InvalidState)?;
    if life.generation == Generation::LAST {
        return Err(Refusal::Exhausted);
    }
    if !registry_needs::all_available(m, memory_lists::dependency_words(m, at)) {
        return Err(Refusal::Unavailable);
    }
    let domain = memory::domain(m);
    let begun = life.begun(next);
    memory_life::store(m, at, begun);
    Ok(Ticket {
        domain,
        id,
        generation: begun.generation.0,
        kind: registry_table::SETUP,
    })
}

// 1, phase.
pub fn fail(m: &mut [u64; WORDS], id: u64) -> Result<(), Refusal>
    ensures { Meets stored_life (fail (view m.old) id) m.old (done_answer result) m.new }
{
    let Some(at) = memory::find(m, id) else {
        return Err(Refusal::Unknown);
    };
    let life = memory_life::load(m, at);
    let next = registry_table::next(life.phase, Step::Fail).ok_or(Refusal::InvalidState)?;
    memory_life::store(m, at, life.with_phase(next));
    Ok(())
}

// 1, phase, 15.
pub fn unload(m: &mut [u64; WORDS], id: u64) -> Result<(), Refusal>
    ensures { Meets stored_life (unload (view m.old) id) m.old (done_answer result) m.new }
{
    let Some(at) = memory::find(m, id) else {
        return Err(Refusal::Unknown);
    };
    let life = memory_life::load(m, at);
    let next = registry_table::next(life.phase, Step::Unload).ok_or(Refusal::InvalidState)?;
    if registry_needs::in_use(m, at) {
        return Err(Refusal::InUse);
    }
    memory_life::store(m, at, life.with_phase(next));
    Ok(())
}
