// A child slot as eight words that a host keeps. Any words are read as a slot; only the words that say something are written.
#![tactic(auto)]

ghost use Rattle.std.specs.Prelude.{◌≡◌};
ghost use Rattle.rules.specs.Slot as rules;
ghost use Rattle.rules.specs.Answers.{done_answer};
ghost use Rattle.slot_child.specs.Slots.{identity_of, decision_of, slot_of, decided_of};
ghost use Rattle.slot_words.specs.Words.{generation_in, decision_in, slot_at, put_generation, put_decision, put_slot, Decides};

use rules::Refusal;
use slot_child::{Decided, Decision, Identity, Slot};

// Domain, parent, whether there is a generation, generation, decision, and the assigned identity's three.
pub const SLOT: usize = 8;

fn generation_of(has: u64, generation: u64) -> Option<u64>
    ensures { result ≡ generation_in has generation }
{
    match has {
        0 => None,
        _ => Some(generation),
    }
}

// A decision by its number; any number above 3 is read as 3.
fn decision_of(w: u64, child: Identity) -> Decision
    ensures { result ≡ decision_in w child }
{
    match w {
        0 => Decision::Pending,
        1 => Decision::Assigned(child),
        2 => Decision::Failed,
        _ => Decision::Cancelled,
    }
}

// Whether there is a generation, and the generation if there is one.
fn put_generation(s: &mut [u64; SLOT], generation: Option<u64>)
    ensures { s.new ≡ put_generation s.old generation }
{
    match generation {
        Some(number) => {
            s[2] = 1;
            s[3] = number;
        }
        None => {
            s[2] = 0;
        }
    }
}

// A decision's number, and the identity of an assigned child.
fn put_decision(s: &mut [u64; SLOT], decision: Decision)
    ensures { s.new ≡ put_decision s.old (decision_of decision) }
{
    match decision {
        Decision::Pending => {
            s[4] = 0;
        }
        Decision::Assigned(child) => {
            s[4] = 1;
            s[5] = child.domain;
            s[6] = child.parent;
            s[7] = child.id;
        }
        Decision::Failed => {
            s[4] = 2;
        }
        Decision::Cancelled => {
            s[4] = 3;
        }
    }
}

pub fn load(s: &[u64; SLOT]) -> Slot
    ensures { result ≡ slot_at s.now }
{
    let child = Identity {
        domain: s[5],
        parent: s[6],
        id: s[7],
    };
    Slot {
        domain: s[0],
        parent: s[1],
        generation: generation_of(s[2], s[3]),
        decision: decision_of(s[4], child),
    }
}

pub fn store(s: &mut [u64; SLOT], slot: Slot)
    ensures { s.new ≡ put_slot s.old (slot_of slot) }
{
    s[0] = slot.domain;
    s[1] = slot.parent;
    put_generation(s, slot.generation);
    put_decision(s, slot.decision);
}

// A decision that was taken is stored; a refused one stores nothing.
fn decided(s: &mut [u64; SLOT], d: Decided) -> Result<(), Refusal>
    ensures { Decides (decided_of d) s.old (done_answer result) s.new }
{
    d.verdict?;
    put_decision(s, d.slot.decision);
    Ok(())
}

pub fn assign(s: &mut [u64; SLOT], child: Identity) -> Result<(), Refusal>
    ensures { Decides (rules.assign (slot_of (slot_at s.old)) (identity_of child)) s.old (done_answer result) s.new }
{
    // A foreign child is refused before the decision is read.
    if !child.is_of(s[0], s[1]) {
        return Err(Refusal::InvalidState);
    }
    decided(s, load(s).assign(child))
}

pub fn reject(s: &mut [u64; SLOT]) -> Result<(), Refusal>
    ensures { Decides (rules.reject (slot_of (slot_at s.old))) s.old (done_answer result) s.new }
{
    decided(s, load(s).reject())
}

pub fn cancel(s: &mut [u64; SLOT]) -> Result<(), Refusal>
    ensures { Decides (rules.cancel (slot_of (slot_at s.old))) s.old (done_answer result) s.new }
{
    decided(s, load(s).cancel())
}
