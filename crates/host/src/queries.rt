// Queries of a plugin and of the registry.
ghost use Rattle.std.specs.Prelude.{◌≡◌, [], ◌∷◌};
ghost use Rattle.rules.specs.Outcomes.{Accepted};
ghost use Rattle.rules.specs.Queries.{Parent, Anchor, EditionOf, PhaseOf, RetiredMark, Generation, Revision, Payload, RootOf};
ghost use Rattle.rules.specs.Queries.{Domain, FirstId, NextId, Registered, RowsInUse};
ghost use Rattle.rules.specs.Steps.{Ask};
ghost use Rattle.rules.specs.Questions.{AskPlugin, AskRegistry, IdFrom};
ghost use Rattle.host_answers.specs.Told.{Tells};
ghost use Rattle.host.specs.Tells.{answer};

use host_answers::ANSWER;
use memory::WORDS;

// The parent's id, or no number.
pub fn vaskelbi_parent(m: &[u64; WORDS], id: u64, out: &mut [u64; ANSWER]) -> u64
    ensures { Tells (answer m.now (Ask (AskPlugin Parent id))) out.old result out.new }
{
    host_answers::perhaps(registry_queries::parent(m, id), out)
}

pub fn vaskelbi_anchor(m: &[u64; WORDS], id: u64, out: &mut [u64; ANSWER]) -> u64
    ensures { Tells (answer m.now (Ask (AskPlugin Anchor id))) out.old result out.new }
{
    host_answers::port(registry_queries::anchor(m, id), out)
}

// The edition of its realm list, 1 or 2, and its default realm, 0 in edition 1.
pub fn vaskelbi_edition(m: &[u64; WORDS], id: u64, out: &mut [u64; ANSWER]) -> u64
    ensures { Tells (answer m.now (Ask (AskPlugin EditionOf id))) out.old result out.new }
{
    host_answers::edition(registry_queries::edition(m, id), out)
}

// 0 Idle, 1 Loading, 2 Active, 3 Unloading.
pub fn vaskelbi_phase(m: &[u64; WORDS], id: u64, out: &mut [u64; ANSWER]) -> u64
    ensures { Tells (answer m.now (Ask (AskPlugin PhaseOf id))) out.old result out.new }
{
    host_answers::number(registry_queries::phase(m, id), out)
}

// 1 where the plugin is retired, else 0.
pub fn vaskelbi_retired(m: &[u64; WORDS], id: u64, out: &mut [u64; ANSWER]) -> u64
    ensures { Tells (answer m.now (Ask (AskPlugin RetiredMark id))) out.old result out.new }
{
    host_answers::number(registry_queries::retired(m, id), out)
}

pub fn vaskelbi_generation(m: &[u64; WORDS], id: u64, out: &mut [u64; ANSWER]) -> u64
    ensures { Tells (answer m.now (Ask (AskPlugin Generation id))) out.old result out.new }
{
    host_answers::number(registry_queries::generation(m, id), out)
}

pub fn vaskelbi_revision(m: &[u64; WORDS], id: u64, out: &mut [u64; ANSWER]) -> u64
    ensures { Tells (answer m.now (Ask (AskPlugin Revision id))) out.old result out.new }
{
    host_answers::number(registry_queries::revision(m, id), out)
}

pub fn vaskelbi_payload(m: &[u64; WORDS], id: u64, out: &mut [u64; ANSWER]) -> u64
    ensures { Tells (answer m.now (Ask (AskPlugin Payload id))) out.old result out.new }
{
    host_answers::number(registry_queries::payload(m, id), out)
}

// 0 Unissued; 1 Queued, with revision and argument; 2 Spent.
pub fn vaskelbi_root(m: &[u64; WORDS], id: u64, out: &mut [u64; ANSWER]) -> u64
    ensures { Tells (answer m.now (Ask (AskPlugin RootOf id))) out.old result out.new }
{
    host_answers::root(registry_queries::root(m, id), out)
}

// The lowest registered id at or above a number, or no number.
pub fn vaskelbi_id_from(m: &[u64; WORDS], number: u64, out: &mut [u64; ANSWER]) -> u64
    ensures { Tells (answer m.now (Ask (IdFrom number))) out.old result out.new }
{
    host_answers::optional(memory_places::id_from(m, number), out)
}

pub fn vaskelbi_domain(m: &[u64; WORDS]) -> u64
    ensures { answer m.now (Ask (AskRegistry Domain)) ≡ Accepted (result ∷ []) }
{
    memory::domain(m)
}

pub fn vaskelbi_first(m: &[u64; WORDS]) -> u64
    ensures { answer m.now (Ask (AskRegistry FirstId)) ≡ Accepted (result ∷ []) }
{
    memory::first_id(m)
}

pub fn vaskelbi_next(m: &[u64; WORDS]) -> u64
    ensures { answer m.now (Ask (AskRegistry NextId)) ≡ Accepted (result ∷ []) }
{
    memory::next_id(m)
}

pub fn vaskelbi_count(m: &[u64; WORDS]) -> u64
    ensures { answer m.now (Ask (AskRegistry Registered)) ≡ Accepted (result ∷ []) }
{
    memory_places::registered(m)
}

pub fn vaskelbi_rows(m: &[u64; WORDS]) -> u64
    ensures { answer m.now (Ask (AskRegistry RowsInUse)) ≡ Accepted (result ∷ []) }
{
    memory_places::rows_in_use(m) as u64
}
