// Replacement of a payload, and whether a count of replacements fits.
ghost use Rattle.rules.specs.Steps.{Replace, Ask};
ghost use Rattle.rules.specs.Questions.{Fits};
ghost use Rattle.host_answers.specs.Told.{Tells};
ghost use Rattle.host.specs.Tells.{answer, DoesAndTells};

use host_answers::ANSWER;
use memory::WORDS;

// It answers the former payload; a refusal answers the offered one.
pub fn vaskelbi_replace(m: &mut [u64; WORDS], id: u64, payload: u64, out: &mut [u64; ANSWER]) -> u64
    ensures { DoesAndTells m.old (Replace id payload) out.old result out.new m.new }
{
    host_answers::replaced(registry_replace::replace(m, id, payload), out)
}

// Whether a count of replacements fits: 1 for yes, 0 for no.
pub fn vaskelbi_fits(m: &[u64; WORDS], id: u64, count: u64, out: &mut [u64; ANSWER]) -> u64
    ensures { Tells (answer m.now (Ask (Fits id count))) out.old result out.new }
{
    host_answers::whether(registry_replace::fits(m, id, count), out)
}
