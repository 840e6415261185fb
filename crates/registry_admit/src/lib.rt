// Document 01, "Admission and call", over the registry's memory.
#![tactic(auto)]

ghost use Rattle.std.specs.Prelude.{◌≡◌};
ghost use Rattle.rules.specs.Outcomes.{answer_of, Meets};
ghost use Rattle.rules.specs.Admission.{admit, admits, call};
ghost use Rattle.memory.specs.View.{view};
ghost use Rattle.memory.specs.Known.{stored_life};
ghost use Rattle.registry_live.specs.Lives.{invocation_of};
ghost use Rattle.registry_admit.specs.Answers.{ticket_of, Asked, admitted_answer, admits_answer, called_answer};

use memory::{Life, WORDS};
use registry_live::Invocation;
use registry_table::Ticket;
use rules::{Refusal, Root};

// The request of a root's receipt.
pub const ROOT_REQUEST: u64 = 0;

#[derive(Clone, Copy, PartialEq, Eq)]
pub struct Receipt {
    pub domain: u64,
    pub id: u64,
    pub generation: u64,
    pub request: u64,
    pub payload: u64,
    pub argument: u64,
}

// Where a ticket is admitted: domain or kind 3, then 1, 2, then 13 if not Loading or another generation, then 3 if root isn't Unissued.
fn ask(m: &[u64; WORDS], ticket: Ticket) -> Result<(usize, Life), Refusal>
    ensures { Asked m.now (ticket_of ticket) result }
{
    if ticket.domain != memory::domain(m) || ticket.kind != registry_table::SETUP {
        return Err(Refusal::InvalidState);
    }
    let at = memory::look_up(m, ticket.id)?;
    let life = memory_life::load(m, at);
    registry_live::verdict(life, ticket.generation)?;
    Ok((at, life))
}

// Admission: the root becomes Queued.
pub fn admit(m: &mut [u64; WORDS], ticket: Ticket, argument: u64) -> Result<Invocation, Refusal>
    ensures { Meets stored_life (admit (view m.old) (ticket_of ticket) argument)
        m.old (admitted_answer result) m.new }
{
    let (at, life) = ask(m, ticket)?;
    memory_life::store(m, at, life.with_root(Root::Queued(life.revision, argument)));
    Ok(Invocation {
        domain: ticket.domain,
        id: ticket.id,
        generation: ticket.generation,
        revision: life.revision,
        argument,
    })
}

// Whether a ticket would be admitted (R's accepts_root_invocation).
pub fn admits(m: &[u64; WORDS], ticket: Ticket) -> bool
    ensures { admits_answer result ≡ answer_of (admits (view m.now) (ticket_of ticket)) }
{
    ask(m, ticket).is_ok()
}

// Call: domain 3, 1, 2, then 13 unless it is live; root becomes Spent and nothing else changes.
pub fn call(m: &mut [u64; WORDS], invocation: Invocation) -> Result<Receipt, Refusal>
    ensures { Meets stored_life (call (view m.old) (invocation_of invocation))
        m.old (called_answer result) m.new }
{
    if invocation.domain != memory::domain(m) {
        return Err(Refusal::InvalidState);
    }
    let at = memory::look_up(m, invocation.id)?;
    let life = memory_life::load(m, at);
    if life.retired {
        return Err(Refusal::Retired);
    }
    if !registry_live::is_live(life, invocation) {
        return Err(Refusal::Stale);
    }
    memory_life::store(m, at, life.with_root(Root::Spent));
    Ok(Receipt {
        domain: invocation.domain,
        id: invocation.id,
        generation: invocation.generation,
        request: ROOT_REQUEST,
        payload: life.payload,
        argument: invocation.argument,
    })
}
