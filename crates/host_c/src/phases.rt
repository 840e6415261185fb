// Exported: the five steps of a plugin.
ghost use Rattle.rules.specs.Steps.{Begin, Ready, Fail, Unload, Finish};
ghost use Rattle.host.specs.Tells.{Does, DoesAndTells};

use host_answers::ANSWER;
use memory::WORDS;

#[unsafe(no_mangle)]
pub extern "C" fn vaskelbi_begin(m: &mut [u64; WORDS], id: u64, out: &mut [u64; ANSWER]) -> u64
    ensures { DoesAndTells m.old (Begin id) out.old result out.new m.new }
{
    host::vaskelbi_begin(m, id, out)
}

#[unsafe(no_mangle)]
pub extern "C" fn vaskelbi_ready(m: &mut [u64; WORDS], id: u64) -> u64
    ensures { Does m.old (Ready id) result m.new }
{
    host::vaskelbi_ready(m, id)
}

#[unsafe(no_mangle)]
pub extern "C" fn vaskelbi_fail(m: &mut [u64; WORDS], id: u64) -> u64
    ensures { Does m.old (Fail id) result m.new }
{
    host::vaskelbi_fail(m, id)
}

#[unsafe(no_mangle)]
pub extern "C" fn vaskelbi_unload(m: &mut [u64; WORDS], id: u64) -> u64
    ensures { Does m.old (Unload id) result m.new }
{
    host::vaskelbi_unload(m, id)
}

#[unsafe(no_mangle)]
pub extern "C" fn vaskelbi_finish(m: &mut [u64; WORDS], id: u64) -> u64
    ensures { Does m.old (Finish id) result m.new }
{
    host::vaskelbi_finish(m, id)
}
