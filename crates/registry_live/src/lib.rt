// Document 01, "Admission and call": what they ask of a found plugin's life.
#![tactic(auto)]

ghost use Rattle.std.specs.Prelude.{◌≡◌};
ghost use Rattle.registry_live.specs.Lives.{is_current, verdict_of, invocation_of, live_of};

use memory::Life;
use rules::{Phase, Refusal, Root};

// What an admission answers and a call takes.
#[derive(Clone, Copy, PartialEq, Eq)]
pub struct Invocation {
    pub domain: u64,
    pub id: u64,
    pub generation: u64,
    pub revision: u64,
    pub argument: u64,
}

// Loading, and of this generation.
fn is_current(life: Life, generation: u64) -> bool
    ensures { result ≡ is_current life generation }
{
    life.phase == Phase::Loading && life.generation.0 == generation
}

// What admission says of a found plugin's life.
#[tactic(auto, unfolding(rules::specs::Answers::verdict))]
pub fn verdict(life: Life, generation: u64) -> Result<(), Refusal>
    ensures { result ≡ verdict_of life generation }
{
    if life.retired {
        return Err(Refusal::Retired);
    }
    if !is_current(life, generation) {
        return Err(Refusal::Stale);
    }
    if life.root != Root::Unissued {
        return Err(Refusal::InvalidState);
    }
    Ok(())
}

// Whether an invocation is still the admitted one of this life.
pub fn is_live(life: Life, invocation: Invocation) -> bool
    ensures { result ≡ live_of life (invocation_of invocation) }
{
    is_current(life, invocation.generation)
        && life.revision == invocation.revision
        && life.root == Root::Queued(invocation.revision, invocation.argument)
}
