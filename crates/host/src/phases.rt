// Phases: the five steps of a plugin.
ghost use Rattle.rules.specs.Steps.{Begin, Ready, Fail, Unload, Finish};
ghost use Rattle.host.specs.Tells.{Does, DoesAndTells};

use host_answers::ANSWER;
use memory::WORDS;

// It answers a ticket: domain, id, generation, kind.
pub fn vaskelbi_begin(m: &mut [u64; WORDS], id: u64, out: &mut [u64; ANSWER]) -> u64
    ensures { DoesAndTells m.old (Begin id) out.old result out.new m.new }
{
    host_answers::begun(registry_steps::begin(m, id), out)
}

pub fn vaskelbi_ready(m: &mut [u64; WORDS], id: u64) -> u64
    ensures { Does m.old (Ready id) result m.new }
{
    host_answers::done(registry_ready_finish::ready(m, id))
}

pub fn vaskelbi_fail(m: &mut [u64; WORDS], id: u64) -> u64
    ensures { Does m.old (Fail id) result m.new }
{
    host_answers::done(registry_steps::fail(m, id))
}

pub fn vaskelbi_unload(m: &mut [u64; WORDS], id: u64) -> u64
    ensures { Does m.old (Unload id) result m.new }
{
    host_answers::done(registry_steps::unload(m, id))
}

pub fn vaskelbi_finish(m: &mut [u64; WORDS], id: u64) -> u64
    ensures { Does m.old (Finish id) result m.new }
{
    host_answers::done(registry_ready_finish::finish(m, id))
}
