// Document 01, "Values": the questions, over the registry's memory. A read looks at the live provider; nothing is kept of it.
#![tactic(auto)]

ghost use Rattle.std.specs.Prelude.{◌≡◌, ◌%◌};
ghost use Rattle.rules.specs.Outcomes.{answer_of};
ghost use Rattle.rules.specs.Values.{read, visible, own, missing, matching, declares};
ghost use Rattle.rules.specs.Answers.{whether_answer, perhaps_answer, option_answer};
ghost use Rattle.memory.specs.View.{plugin_at, view};
ghost use Rattle.memory.specs.Layout.{places};
ghost use Rattle.registry_queries.specs.Answers.{port_answer};
ghost use Rattle.registry_values.specs.Answers.{reading_answer};
ghost use Rattle.registry_values.specs.Rules.{given_by, declared};

use memory::WORDS;
use rules::{Port, Refusal};

// A value and its provider's id.
#[derive(Clone, Copy)]
pub struct Reading {
    pub value: u64,
    pub provider: u64,
}

// What the plugin of a place gives for a port: the value and its own id, or 22.
fn given(m: &[u64; WORDS], place: usize, port: Port) -> Result<Reading, Refusal>
    ensures { reading_answer result ≡ given_by (plugin_at m.now (place % places)) port }
{
    let value = memory_values::value_of(m, place, port).ok_or(Refusal::Missing)?;
    Ok(Reading {
        value,
        provider: memory::id(m, place),
    })
}

// Read: 1, 19 if neither Loading nor Active, 20 if the port is not a dependency, 22 if its provider has no value for it.
pub fn read(m: &[u64; WORDS], id: u64, port: Port) -> Result<Reading, Refusal>
    ensures { reading_answer result ≡ answer_of (read (view m.now) id port) }
{
    let at = memory::look_up(m, id)?;
    if !registry_needs::is_running(memory_life::load(m, at)) {
        return Err(Refusal::Closed);
    }
    if !ports::has_port(memory_lists::dependency_words(m, at), port) {
        return Err(Refusal::Undeclared);
    }
    let from = memory_providers::provider(m, port).ok_or(Refusal::Missing)?;
    given(m, from, port)
}

// The Active provider's value of a port, or nothing.
pub fn visible(m: &[u64; WORDS], port: Port) -> Option<u64>
    ensures { option_answer result ≡ answer_of (visible (view m.now) port) }
{
    let from = memory_providers::provider(m, port)?;
    if !registry_needs::is_active(memory_life::load(m, from)) {
        return None;
    }
    memory_values::value_of(m, from, port)
}

// A plugin's own value of a provision, or nothing.
pub fn own(m: &[u64; WORDS], id: u64, port: Port) -> Result<Option<u64>, Refusal>
    ensures { perhaps_answer result ≡ answer_of (own (view m.now) id port) }
{
    let at = memory::look_up(m, id)?;
    Ok(memory_values::value_of(m, at, port))
}

// The first provision in order without a value, or nothing.
pub fn missing(m: &[u64; WORDS], id: u64) -> Result<Option<Port>, Refusal>
    ensures { port_answer result ≡ answer_of (missing (view m.now) id) }
{
    let at = memory::look_up(m, id)?;
    let list = memory_lists::provision_words(m, at);
    Ok(memory_values::first_lacking(m, at).map(|row| ports::port_at(list, row)))
}

// Whether a list is the plugin's provision list in order; an odd length answers no.
pub fn matches(m: &[u64; WORDS], id: u64, list: &[u64]) -> Result<bool, Refusal>
    ensures { whether_answer result ≡ answer_of (matching (view m.now) id list.now) }
{
    let at = memory::look_up(m, id)?;
    Ok(ports::same_ports(list, memory_lists::provision_words(m, at)))
}

// A provision, or a dependency of a plugin that is Loading or Active.
fn is_declared(m: &[u64; WORDS], place: usize, port: Port) -> bool
    ensures { result ≡ declared (plugin_at m.now (place % places)) port }
{
    ports::has_port(memory_lists::provision_words(m, place), port)
        || registry_needs::is_running(memory_life::load(m, place))
            && ports::has_port(memory_lists::dependency_words(m, place), port)
}

// Whether the plugin declares the service.
pub fn declares(m: &[u64; WORDS], id: u64, port: Port) -> Result<bool, Refusal>
    ensures { whether_answer result ≡ answer_of (declares (view m.now) id port) }
{
    let at = memory::look_up(m, id)?;
    Ok(is_declared(m, at, port))
}
