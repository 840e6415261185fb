// Exported: a key looked up, in a realm list and among a plugin's dependencies.
ghost use Rattle.rules.specs.Outcomes.{answer_of};
ghost use Rattle.rules.specs.Ports.{resolve_key};
ghost use Rattle.rules.specs.Steps.{Ask};
ghost use Rattle.rules.specs.Questions.{DependencyPort};
ghost use Rattle.host_answers.specs.Told.{Tells};
ghost use Rattle.host.specs.Tells.{answer};

use host_answers::ANSWER;
use memory::WORDS;

#[unsafe(no_mangle)]
pub extern "C" fn vaskelbi_resolve(realms: &[u64], key: u64, out: &mut [u64; ANSWER]) -> u64
    ensures { Tells (answer_of (resolve_key realms.now key)) out.old result out.new }
{
    host::vaskelbi_resolve(realms, key, out)
}

#[unsafe(no_mangle)]
pub extern "C" fn vaskelbi_lookup(
    m: &[u64; WORDS],
    id: u64,
    key: u64,
    out: &mut [u64; ANSWER],
) -> u64
    ensures { Tells (answer m.now (Ask (DependencyPort id key))) out.old result out.new }
{
    host::vaskelbi_lookup(m, id, key, out)
}
