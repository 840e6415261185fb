// Document 01, "Retirement", over the registry's memory, but for removal.
#![tactic(auto)]

ghost use Rattle.std.specs.Prelude.{◌≡◌};
ghost use Rattle.rules.specs.Outcomes.{answer_of, Meets};
ghost use Rattle.rules.specs.Retirement.{retire, retire_child, child_identity};
ghost use Rattle.rules.specs.Answers.{done_answer};
ghost use Rattle.memory.specs.View.{view};
ghost use Rattle.memory.specs.Known.{stored_life};
ghost use Rattle.slot_child.specs.Slots.{identity_of};
ghost use Rattle.registry_retire.specs.Answers.{child_answer, Marks};

use memory::WORDS;
use rules::Refusal;
use slot_child::Identity;

// 2; else the retired mark is set.
fn mark(m: &mut [u64; WORDS], place: usize) -> Result<(), Refusal>
    ensures { Marks m.old place result m.new }
{
    let life = memory_life::load(m, place);
    if life.retired {
        return Err(Refusal::Retired);
    }
    memory_life::store(m, place, life.marked());
    Ok(())
}

// By id: 1, 2; else the retired mark is set.
pub fn retire(m: &mut [u64; WORDS], id: u64) -> Result<(), Refusal>
    ensures { Meets stored_life (retire (view m.old) id) m.old (done_answer result) m.new }
{
    let at = memory::look_up(m, id)?;
    mark(m, at)
}

// By child identity: domain 3; never issued 1; not registered: accepted, nothing changes; parent differs or none 3; then 2; else the mark.
pub fn retire_child(m: &mut [u64; WORDS], child: Identity) -> Result<(), Refusal>
    ensures { Meets stored_life (retire_child (view m.old) (identity_of child))
        m.old (done_answer result) m.new }
{
    if child.domain != memory::domain(m) {
        return Err(Refusal::InvalidState);
    }
    if child.id < memory::first_id(m) || memory::next_id(m) <= child.id {
        return Err(Refusal::Unknown);
    }
    let Some(at) = memory::find(m, child.id) else {
        return Ok(());
    };
    if !memory::is_child_of(m, at, child.parent) {
        return Err(Refusal::InvalidState);
    }
    mark(m, at)
}

// Asking a plugin's child identity: 1, else the identity, or none without a parent.
pub fn child_identity(m: &[u64; WORDS], id: u64) -> Result<Option<Identity>, Refusal>
    ensures { child_answer result ≡ answer_of (child_identity (view m.now) id) }
{
    let at = memory::look_up(m, id)?;
    let Some(parent) = memory::parent_of(m, at) else {
        return Ok(None);
    };
    Ok(Some(Identity {
        domain: memory::domain(m),
        parent,
        id,
    }))
}
