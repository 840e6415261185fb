// Lists: a plugin's ports and realm rows into the host's buffer.
ghost use Rattle.rules.specs.Lists.{Dependencies, Provisions, RealmRows};
ghost use Rattle.rules.specs.Steps.{Write};
ghost use Rattle.rules.specs.Questions.{Listed};
ghost use Rattle.host.specs.Tells.{ListsAndTells};

use host_answers::ANSWER;
use memory::WORDS;

// It answers how many pairs were listed into the buffer from the place.
pub fn vaskelbi_list_dependencies(
    m: &[u64; WORDS],
    id: u64,
    place: usize,
    buffer: &mut [u64],
    out: &mut [u64; ANSWER],
) -> u64
    ensures { ListsAndTells m.now (Write (Listed Dependencies id place) buffer.old)
        out.old result out.new buffer.new }
{
    host_answers::number(
        registry_queries::list_dependencies(m, id, place, buffer),
        out,
    )
}

pub fn vaskelbi_list_provisions(
    m: &[u64; WORDS],
    id: u64,
    place: usize,
    buffer: &mut [u64],
    out: &mut [u64; ANSWER],
) -> u64
    ensures { ListsAndTells m.now (Write (Listed Provisions id place) buffer.old)
        out.old result out.new buffer.new }
{
    host_answers::number(registry_queries::list_provisions(m, id, place, buffer), out)
}

pub fn vaskelbi_list_realms(
    m: &[u64; WORDS],
    id: u64,
    place: usize,
    buffer: &mut [u64],
    out: &mut [u64; ANSWER],
) -> u64
    ensures { ListsAndTells m.now (Write (Listed RealmRows id place) buffer.old)
        out.old result out.new buffer.new }
{
    host_answers::number(registry_queries::list_realms(m, id, place, buffer), out)
}
