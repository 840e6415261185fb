// Opening, which frees every place, and document 01's removal, which frees one and its rows.
#![tactic(auto)]

ghost use Rattle.std.specs.Prelude.{◌≡◌, ◌&&◌};
ghost use Rattle.rules.specs.Outcomes.{Meets};
ghost use Rattle.rules.specs.Basics.{any};
ghost use Rattle.rules.specs.Holds.{plugins, is_idle};
ghost use Rattle.rules.specs.Retirement.{is_child_of, remove};
ghost use Rattle.rules.specs.Answers.{done_answer};
ghost use Rattle.memory.specs.View.{view};
ghost use Rattle.memory.specs.Writes.{opened_with};
ghost use Rattle.registry_remove.specs.Words.{removed_from};

use memory::layout::PLACES;
use memory::{Life, WORDS};
use rules::{Phase, Refusal};

// Open: domain, first id and next id, and all places free.
pub fn open(m: &mut [u64; WORDS], domain: u64, first: u64)
    ensures { m.new ≡ opened_with m.old domain first first }
{
    memory::open_words(m, domain, first, first);
}

// Whether a registered plugin names the id as parent.
fn has_children(m: &[u64; WORDS], id: u64) -> bool
    ensures { result ≡ any (is_child_of id) (plugins (view m.now)) }
{
    for i in 0..PLACES {
        if memory::is_child_of(m, i, id) && memory::is_taken(m, i) {
            return true;
        }
    }
    false
}

// Removal: 1, 3 unless Idle and retired, 18; frees place and rows.
pub fn remove(m: &mut [u64; WORDS], id: u64) -> Result<(), Refusal>
    ensures { Meets removed_from (remove (view m.old) id) m.old (done_answer result) m.new }
{
    let at = memory::look_up(m, id)?;
    if !is_removable(memory_life::load(m, at)) {
        return Err(Refusal::InvalidState);
    }
    if has_children(m, id) {
        return Err(Refusal::HasChildren);
    }
    memory_rows::free_place(m, at);
    Ok(())
}

fn is_removable(life: Life) -> bool
    ensures { result ≡ (is_idle life.phase && life.retired) }
{
    life.phase == Phase::Idle && life.retired
}
