// Document 01, "Phases": ready, which asks for every value, and finish, which drops them.
#![tactic(auto)]

ghost use Rattle.std.specs.Prelude.{◌≡◌};
ghost use Rattle.rules.specs.Outcomes.{Meets};
ghost use Rattle.rules.specs.Phases.{is_spent, ready, finish};
ghost use Rattle.rules.specs.Answers.{done_answer};
ghost use Rattle.memory.specs.View.{view};
ghost use Rattle.memory.specs.Known.{stored_life};
ghost use Rattle.registry_ready_finish.specs.Finished.{finished_to};

use memory::{Life, WORDS};
use registry_table::Step;
use rules::{Refusal, Root};

fn is_spent(life: Life) -> bool
    ensures { result ≡ is_spent life.root }
{
    life.root == Root::Spent
}

// 1, 2, phase, 17, 22 if a provision has no value.
pub fn ready(m: &mut [u64; WORDS], id: u64) -> Result<(), Refusal>
    ensures { Meets stored_life (ready (view m.old) id) m.old (done_answer result) m.new }
{
    let Some(at) = memory::find(m, id) else {
        return Err(Refusal::Unknown);
    };
    let life = memory_life::load(m, at);
    if life.retired {
        return Err(Refusal::Retired);
    }
    let next = registry_table::next(life.phase, Step::Ready).ok_or(Refusal::InvalidState)?;
    if !is_spent(life) {
        return Err(Refusal::NotRun);
    }
    if memory_values::first_lacking(m, at).is_some() {
        return Err(Refusal::Missing);
    }
    memory_life::store(m, at, life.with_phase(next));
    Ok(())
}

// 1, phase; values are dropped and root is Unissued.
pub fn finish(m: &mut [u64; WORDS], id: u64) -> Result<(), Refusal>
    ensures { Meets finished_to (finish (view m.old) id) m.old (done_answer result) m.new }
{
    let Some(at) = memory::find(m, id) else {
        return Err(Refusal::Unknown);
    };
    let life = memory_life::load(m, at);
    let next = registry_table::next(life.phase, Step::Finish).ok_or(Refusal::InvalidState)?;
    memory_life::store(m, at, life.finished(next));
    memory_values::drop_values(m, at);
    Ok(())
}
