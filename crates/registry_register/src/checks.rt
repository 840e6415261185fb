// The checks of document 01, "Registration", in its order and in three runs: what is asked for, the claimed ports, the room.
ghost use Rattle.std.specs.Prelude.{◌≡◌, ◌+◌};
ghost use Rattle.rules.specs.Holds.{is_unloading};
ghost use Rattle.rules.specs.Ports.{pairs};
ghost use Rattle.rules.specs.Registration.{parent_checks, asked_checks, claim_checks, room_checks};
ghost use Rattle.memory.specs.View.{view};
ghost use Rattle.rules.specs.Answers.{verdict};
ghost use Rattle.registry_register.specs.Verdicts.{under, place_above, asked};

use memory::{Life, WORDS};
use rules::{Phase, Refusal, limits};

fn is_unloading(life: Life) -> bool
    ensures { result ≡ is_unloading life.phase }
{
    life.phase == Phase::Unloading
}

// The parent's checks: 1, 2, 3 where it is Unloading.
fn parent_verdict(m: &[u64; WORDS], parent: Option<u64>) -> Result<Option<usize>, Refusal>
    ensures { result ≡ under (place_above m.now parent) (verdict (parent_checks (view m.now) parent)) }
{
    let Some(id) = parent else {
        return Ok(None);
    };
    let at = memory::look_up(m, id)?;
    let life = memory_life::load(m, at);
    if life.retired {
        return Err(Refusal::Retired);
    }
    if is_unloading(life) {
        return Err(Refusal::InvalidState);
    }
    Ok(Some(at))
}

// 26, 4, 5, the parent's checks, 6.
pub fn early_verdict(
    m: &[u64; WORDS],
    parent: Option<u64>,
    realms: &[u64],
    dependencies: &[u64],
    provisions: &[u64],
) -> Result<Option<usize>, Refusal>
    ensures { result ≡ under (place_above m.now parent) (verdict (asked_checks (view m.now)
        (asked parent realms.now dependencies.now provisions.now))) }
{
    ports_realms::list_verdict(realms)?;
    if limits::DEPENDENCY_KEYS < dependencies.len() {
        return Err(Refusal::TooManyKeys);
    }
    if limits::PROVISION_KEYS < provisions.len() {
        return Err(Refusal::TooManyKeys);
    }
    let above = parent_verdict(m, parent)?;
    if ports_resolved::repeated_key(dependencies) {
        return Err(Refusal::DuplicateDependency);
    }
    Ok(above)
}

// 7, 8.
#[tactic(auto, unfolding(rules::specs::Answers::verdict))]
pub fn claim_verdict(m: &[u64; WORDS], list: &[u64]) -> Result<(), Refusal>
    ensures { result ≡ verdict (claim_checks (view m.now) (pairs list.now)) }
{
    if ports::repeated(list) {
        return Err(Refusal::DuplicateProvision);
    }
    if memory_providers::one_provided(m, list) {
        return Err(Refusal::Taken);
    }
    Ok(())
}

// 9, 10, 11, 12, where so many rows are in use.
#[tactic(auto, unfolding(rules::specs::Answers::verdict, memory::specs::View::view))]
pub fn late_verdict(
    m: &[u64; WORDS],
    rows: usize,
    dependencies: usize,
    claims: usize,
) -> Result<(), Refusal>
    ensures { result ≡ verdict (room_checks (view m.now) dependencies (rows + (dependencies + claims))) }
{
    let registered = memory_places::registered(m);
    if memory::next_id(m) == u64::MAX {
        return Err(Refusal::NoId);
    }
    if limits::PLUGINS <= registered as usize {
        return Err(Refusal::Full);
    }
    if limits::DEPENDENCIES < dependencies {
        return Err(Refusal::TooLong);
    }
    if limits::ROWS < rows {
        return Err(Refusal::NoRows);
    }
    if limits::ROWS - rows < dependencies {
        return Err(Refusal::NoRows);
    }
    if limits::ROWS - rows - dependencies < claims {
        return Err(Refusal::NoRows);
    }
    Ok(())
}
