// Document 01, "Values": offering one, over the registry's memory.
#![tactic(auto)]

ghost use Rattle.std.specs.Prelude.{◌≡◌, not, ◌&&◌};
ghost use Rattle.rules.specs.Holds.{is_loading};
ghost use Rattle.rules.specs.Answers.{done_answer};
ghost use Rattle.registry_offer.specs.Words.{Offers};

use memory::{Life, WORDS};
use rules::{Phase, Port, Refusal};

// Closed for offers unless Loading and not retired.
fn is_closed(life: Life) -> bool
    ensures { result ≡ not (is_loading life.phase && not life.retired) }
{
    life.phase != Phase::Loading || life.retired
}

// Offer: 1, 19 unless Loading and not retired, 20 if the port is not in provisions, 21 if it has a value.
pub fn offer(m: &mut [u64; WORDS], id: u64, port: Port, value: u64) -> Result<(), Refusal>
    ensures { Offers m.old id port value (done_answer result) m.new }
{
    let at = memory::look_up(m, id)?;
    if is_closed(memory_life::load(m, at)) {
        return Err(Refusal::Closed);
    }
    let list = memory_lists::provision_words(m, at);
    let row = memory_values::place_of(list, port).ok_or(Refusal::Undeclared)?;
    if memory_values::value_at(m, at, row).is_some() {
        return Err(Refusal::Duplicate);
    }
    memory_values::set_value(m, at, row, value);
    Ok(())
}
