// Exported: replacement of a payload, and whether a count of replacements fits.
ghost use Rattle.rules.specs.Steps.{Replace, Ask};
ghost use Rattle.rules.specs.Questions.{Fits};
ghost use Rattle.host_answers.specs.Told.{Tells};
ghost use Rattle.host.specs.Tells.{answer, DoesAndTells};

use host_answers::ANSWER;
use memory::WORDS;

#[unsafe(no_mangle)]
pub extern "C" fn vaskelbi_replace(
    m: &mut [u64; WORDS],
    id: u64,
    payload: u64,
    out: &mut [u64; ANSWER],
) -> u64
    ensures { DoesAndTells m.old (Replace id payload) out.old result out.new m.new }
{
    host::vaskelbi_replace(m, id, payload, out)
}

#[unsafe(no_mangle)]
pub extern "C" fn vaskelbi_fits(
    m: &[u64; WORDS],
    id: u64,
    count: u64,
    out: &mut [u64; ANSWER],
) -> u64
    ensures { Tells (answer m.now (Ask (Fits id count))) out.old result out.new }
{
    host::vaskelbi_fits(m, id, count, out)
}
