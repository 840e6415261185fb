// The registry as text into the host's bytes, and back.
ghost use Rattle.rules.specs.Steps.{Write};
ghost use Rattle.rules.specs.Questions.{Text};
ghost use Rattle.host.specs.Tells.{ListsAndTells, Loads};

use host_answers::ANSWER;
use memory::WORDS;

// It answers the text's length; bytes behind the text stay as they were.
pub fn vaskelbi_write_text(m: &[u64; WORDS], text: &mut [u8], out: &mut [u64; ANSWER]) -> u64
    ensures { ListsAndTells m.now (Write Text text.old)
        out.old result out.new text.new }
{
    host_answers::number(text_write::write_text(m, text), out)
}

// The registry of a text takes the place of the one in the memory, under this domain; a refused text changes nothing.
pub fn vaskelbi_load(m: &mut [u64; WORDS], domain: u64, text: &[u8]) -> u64
    ensures { Loads m.old domain text.now result m.new }
{
    host_answers::done(registry_load::load(m, domain, text))
}
