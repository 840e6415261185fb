// Ports and realms, and the dependency list: a key is looked up.
ghost use Rattle.rules.specs.Outcomes.{answer_of};
ghost use Rattle.rules.specs.Ports.{resolve_key};
ghost use Rattle.rules.specs.Steps.{Ask};
ghost use Rattle.rules.specs.Questions.{DependencyPort};
ghost use Rattle.host_answers.specs.Told.{Tells};
ghost use Rattle.host.specs.Tells.{answer};

use host_answers::ANSWER;
use memory::WORDS;

// A key resolved in a realm list of the host's: 26, 4.
pub fn vaskelbi_resolve(realms: &[u64], key: u64, out: &mut [u64; ANSWER]) -> u64
    ensures { Tells (answer_of (resolve_key realms.now key)) out.old result out.new }
{
    host_answers::resolved(ports_realms::resolve_key(realms, key), out)
}

// The first dependency with the key, or no number.
pub fn vaskelbi_lookup(m: &[u64; WORDS], id: u64, key: u64, out: &mut [u64; ANSWER]) -> u64
    ensures { Tells (answer m.now (Ask (DependencyPort id key))) out.old result out.new }
{
    host_answers::port(registry_queries::dependency_port(m, id, key), out)
}
