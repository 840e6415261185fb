// Exported: a start order for a set of plugins, planned and checked.
ghost use Rattle.rules.specs.Steps.{Ask, Write};
ghost use Rattle.rules.specs.Questions.{CheckOrder, Order};
ghost use Rattle.host_answers.specs.Told.{Tells};
ghost use Rattle.host.specs.Tells.{answer, ListsAndTells};

use host_answers::ANSWER;
use memory::WORDS;

#[unsafe(no_mangle)]
pub extern "C" fn vaskelbi_plan_order(
    m: &[u64; WORDS],
    set: &[u64],
    buffer: &mut [u64],
    out: &mut [u64; ANSWER],
) -> u64
    ensures { ListsAndTells m.now (Write (Order set.now) buffer.old)
        out.old result out.new buffer.new }
{
    host::vaskelbi_plan_order(m, set, buffer, out)
}

#[unsafe(no_mangle)]
pub extern "C" fn vaskelbi_check_order(
    m: &[u64; WORDS],
    set: &[u64],
    order: &[u64],
    out: &mut [u64; ANSWER],
) -> u64
    ensures { Tells (answer m.now (Ask (CheckOrder set.now order.now)))
        out.old result out.new }
{
    host::vaskelbi_check_order(m, set, order, out)
}
