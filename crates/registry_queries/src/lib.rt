// R's getters as questions by id, the lookup of a dependency key, and document 01's "Lists", over the registry's memory. Nothing is changed.
#![tactic(auto)]

ghost use Rattle.std.specs.Prelude.{◌≡◌};
ghost use Rattle.rules.specs.Dependencies.{dependency_port};
ghost use Rattle.rules.specs.Lists.{list, Dependencies, Provisions, RealmRows};
ghost use Rattle.rules.specs.Outcomes.{answer_of, lent_after, Meets};
ghost use Rattle.rules.specs.Queries.{ask_plugin, Parent, Anchor, EditionOf, PhaseOf, RetiredMark, Generation, Revision, Payload, RootOf};
ghost use Rattle.rules.specs.Answers.{number_answer, perhaps_answer};
ghost use Rattle.memory.specs.View.{view};
ghost use Rattle.memory.specs.Writes.{find_at};
ghost use Rattle.registry_queries.specs.Answers.{port_answer, root_answer, edition_answer};
ghost use Rattle.registry_queries.specs.Asked.{life_known};

use memory::{Life, WORDS};
use rules::{Edition, Port, Refusal, Root};

pub fn parent(m: &[u64; WORDS], id: u64) -> Result<Option<u64>, Refusal>
    ensures { perhaps_answer result ≡ answer_of (ask_plugin (view m.now) Parent id) }
{
    let at = memory::look_up(m, id)?;
    Ok(memory::parent_of(m, at))
}

pub fn anchor(m: &[u64; WORDS], id: u64) -> Result<Option<Port>, Refusal>
    ensures { port_answer result ≡ answer_of (ask_plugin (view m.now) Anchor id) }
{
    let at = memory::look_up(m, id)?;
    Ok(Some(memory_lists::anchor(m, at)))
}

// The edition of its realm list, with its default.
pub fn edition(m: &[u64; WORDS], id: u64) -> Result<Edition, Refusal>
    ensures { edition_answer result ≡ answer_of (ask_plugin (view m.now) EditionOf id) }
{
    let at = memory::look_up(m, id)?;
    Ok(ports_realms::edition(memory_lists::realm_words(m, at)))
}

// What operations change of the plugin with the id.
fn life(m: &[u64; WORDS], id: u64) -> Result<Life, Refusal>
    ensures { result ≡ life_known m.now (find_at m.now id) }
{
    let at = memory::look_up(m, id)?;
    Ok(memory_life::load(m, at))
}

// 0 Idle, 1 Loading, 2 Active, 3 Unloading.
pub fn phase(m: &[u64; WORDS], id: u64) -> Result<u64, Refusal>
    ensures { number_answer result ≡ answer_of (ask_plugin (view m.now) PhaseOf id) }
{
    Ok(life(m, id)?.phase.number())
}

// 1 where the plugin is retired, else 0.
pub fn retired(m: &[u64; WORDS], id: u64) -> Result<u64, Refusal>
    ensures { number_answer result ≡ answer_of (ask_plugin (view m.now) RetiredMark id) }
{
    Ok(life(m, id)?.retired as u64)
}

pub fn generation(m: &[u64; WORDS], id: u64) -> Result<u64, Refusal>
    ensures { number_answer result ≡ answer_of (ask_plugin (view m.now) Generation id) }
{
    Ok(life(m, id)?.generation.0)
}

pub fn revision(m: &[u64; WORDS], id: u64) -> Result<u64, Refusal>
    ensures { number_answer result ≡ answer_of (ask_plugin (view m.now) Revision id) }
{
    Ok(life(m, id)?.revision)
}

pub fn payload(m: &[u64; WORDS], id: u64) -> Result<u64, Refusal>
    ensures { number_answer result ≡ answer_of (ask_plugin (view m.now) Payload id) }
{
    Ok(life(m, id)?.payload)
}

pub fn root(m: &[u64; WORDS], id: u64) -> Result<Root, Refusal>
    ensures { root_answer result ≡ answer_of (ask_plugin (view m.now) RootOf id) }
{
    Ok(life(m, id)?.root)
}

// The first port of the dependency list with the key.
pub fn dependency_port(m: &[u64; WORDS], id: u64, key: u64) -> Result<Option<Port>, Refusal>
    ensures { port_answer result ≡ answer_of (dependency_port (view m.now) id key) }
{
    let at = memory::look_up(m, id)?;
    let list = memory_lists::dependency_words(m, at);
    Ok(ports::first_port(list, key).map(|row| ports::port_at(list, row)))
}

// Dependencies, provisions and realm rows, listed into a lent buffer from a place.
pub fn list_dependencies(
    m: &[u64; WORDS],
    id: u64,
    place: usize,
    buffer: &mut [u64],
) -> Result<u64, Refusal>
    ensures { Meets lent_after (list (view m.now) Dependencies id place buffer.old)
        buffer.old (number_answer result) buffer.new }
{
    let at = memory::look_up(m, id)?;
    ports_listed::list_ports(place, memory_lists::dependency_words(m, at), buffer)
}

pub fn list_provisions(
    m: &[u64; WORDS],
    id: u64,
    place: usize,
    buffer: &mut [u64],
) -> Result<u64, Refusal>
    ensures { Meets lent_after (list (view m.now) Provisions id place buffer.old)
        buffer.old (number_answer result) buffer.new }
{
    let at = memory::look_up(m, id)?;
    ports_listed::list_ports(place, memory_lists::provision_words(m, at), buffer)
}

pub fn list_realms(
    m: &[u64; WORDS],
    id: u64,
    place: usize,
    buffer: &mut [u64],
) -> Result<u64, Refusal>
    ensures { Meets lent_after (list (view m.now) RealmRows id place buffer.old)
        buffer.old (number_answer result) buffer.new }
{
    let at = memory::look_up(m, id)?;
    let realms = memory_lists::realm_words(m, at);
    ports_listed::list_ports(place, ports_realms::rows(realms), buffer)
}
