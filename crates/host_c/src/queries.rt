// Exported: queries of a plugin and of the registry.
ghost use Rattle.std.specs.Prelude.{◌≡◌, [], ◌∷◌};
ghost use Rattle.rules.specs.Outcomes.{Accepted};
ghost use Rattle.rules.specs.Queries.{Parent, Anchor, EditionOf, PhaseOf, RetiredMark, Generation, Revision, Payload, RootOf};
ghost use Rattle.rules.specs.Queries.{Domain, FirstId, NextId, Registered, RowsInUse};
ghost use Rattle.rules.specs.Steps.{Ask};
ghost use Rattle.rules.specs.Questions.{AskPlugin, AskRegistry, IdFrom};
ghost use Rattle.host_answers.specs.Told.{Tells};
ghost use Rattle.host.specs.Tells.{answer};

use host_answers::ANSWER;
use memory::WORDS;

#[unsafe(no_mangle)]
pub extern "C" fn vaskelbi_parent(m: &[u64; WORDS], id: u64, out: &mut [u64; ANSWER]) -> u64
    ensures { Tells (answer m.now (Ask (AskPlugin Parent id))) out.old result out.new }
{
    host::vaskelbi_parent(m, id, out)
}

#[unsafe(no_mangle)]
pub extern "C" fn vaskelbi_anchor(m: &[u64; WORDS], id: u64, out: &mut [u64; ANSWER]) -> u64
    ensures { Tells (answer m.now (Ask (AskPlugin Anchor id))) out.old result out.new }
{
    host::vaskelbi_anchor(m, id, out)
}

#[unsafe(no_mangle)]
pub extern "C" fn vaskelbi_edition(m: &[u64; WORDS], id: u64, out: &mut [u64; ANSWER]) -> u64
    ensures { Tells (answer m.now (Ask (AskPlugin EditionOf id))) out.old result out.new }
{
    host::vaskelbi_edition(m, id, out)
}

#[unsafe(no_mangle)]
pub extern "C" fn vaskelbi_phase(m: &[u64; WORDS], id: u64, out: &mut [u64; ANSWER]) -> u64
    ensures { Tells (answer m.now (Ask (AskPlugin PhaseOf id))) out.old result out.new }
{
    host::vaskelbi_phase(m, id, out)
}

#[unsafe(no_mangle)]
pub extern "C" fn vaskelbi_retired(m: &[u64; WORDS], id: u64, out: &mut [u64; ANSWER]) -> u64
    ensures { Tells (answer m.now (Ask (AskPlugin RetiredMark id))) out.old result out.new }
{
    host::vaskelbi_retired(m, id, out)
}

#[unsafe(no_mangle)]
pub extern "C" fn vaskelbi_generation(m: &[u64; WORDS], id: u64, out: &mut [u64; ANSWER]) -> u64
    ensures { Tells (answer m.now (Ask (AskPlugin Generation id))) out.old result out.new }
{
    host::vaskelbi_generation(m, id, out)
}

#[unsafe(no_mangle)]
pub extern "C" fn vaskelbi_revision(m: &[u64; WORDS], id: u64, out: &mut [u64; ANSWER]) -> u64
    ensures { Tells (answer m.now (Ask (AskPlugin Revision id))) out.old result out.new }
{
    host::vaskelbi_revision(m, id, out)
}

#[unsafe(no_mangle)]
pub extern "C" fn vaskelbi_payload(m: &[u64; WORDS], id: u64, out: &mut [u64; ANSWER]) -> u64
    ensures { Tells (answer m.now (Ask (AskPlugin Payload id))) out.old result out.new }
{
    host::vaskelbi_payload(m, id, out)
}

#[unsafe(no_mangle)]
pub extern "C" fn vaskelbi_root(m: &[u64; WORDS], id: u64, out: &mut [u64; ANSWER]) -> u64
    ensures { Tells (answer m.now (Ask (AskPlugin RootOf id))) out.old result out.new }
{
    host::vaskelbi_root(m, id, out)
}

#[unsafe(no_mangle)]
pub extern "C" fn vaskelbi_id_from(m: &[u64; WORDS], number: u64, out: &mut [u64; ANSWER]) -> u64
    ensures { Tells (answer m.now (Ask (IdFrom number))) out.old result out.new }
{
    host::vaskelbi_id_from(m, number, out)
}

#[unsafe(no_mangle)]
pub extern "C" fn vaskelbi_domain(m: &[u64; WORDS]) -> u64
    ensures { answer m.now (Ask (AskRegistry Domain)) ≡ Accepted (result ∷ []) }
{
    host::vaskelbi_domain(m)
}

#[unsafe(no_mangle)]
pub extern "C" fn vaskelbi_first(m: &[u64; WORDS]) -> u64
    ensures { answer m.now (Ask (AskRegistry FirstId)) ≡ Accepted (result ∷ []) }
{
    host::vaskelbi_first(m)
}

#[unsafe(no_mangle)]
pub extern "C" fn vaskelbi_next(m: &[u64; WORDS]) -> u64
    ensures { answer m.now (Ask (AskRegistry NextId)) ≡ Accepted (result ∷ []) }
{
    host::vaskelbi_next(m)
}

#[unsafe(no_mangle)]
pub extern "C" fn vaskelbi_count(m: &[u64; WORDS]) -> u64
    ensures { answer m.now (Ask (AskRegistry Registered)) ≡ Accepted (result ∷ []) }
{
    host::vaskelbi_count(m)
}

#[unsafe(no_mangle)]
pub extern "C" fn vaskelbi_rows(m: &[u64; WORDS]) -> u64
    ensures { answer m.now (Ask (AskRegistry RowsInUse)) ≡ Accepted (result ∷ []) }
{
    host::vaskelbi_rows(m)
}
