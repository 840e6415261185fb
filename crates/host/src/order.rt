// A start order for a set of plugins: planned into the host's buffer, and checked. Neither changes the registry.
ghost use Rattle.rules.specs.Steps.{Ask, Write};
ghost use Rattle.rules.specs.Questions.{CheckOrder, Order};
ghost use Rattle.host_answers.specs.Told.{Tells};
ghost use Rattle.host.specs.Tells.{answer, ListsAndTells};

use host_answers::ANSWER;
use memory::WORDS;

// It answers the order's length, and no number where no order passes; the buffer behind the order stays as it was.
pub fn vaskelbi_plan_order(
    m: &[u64; WORDS],
    set: &[u64],
    buffer: &mut [u64],
    out: &mut [u64; ANSWER],
) -> u64
    ensures { ListsAndTells m.now (Write (Order set.now) buffer.old)
        out.old result out.new buffer.new }
{
    host_answers::perhaps(registry_plan::plan_order(m, set, buffer), out)
}

// Whether the order passes.
pub fn vaskelbi_check_order(
    m: &[u64; WORDS],
    set: &[u64],
    order: &[u64],
    out: &mut [u64; ANSWER],
) -> u64
    ensures { Tells (answer m.now (Ask (CheckOrder set.now order.now)))
        out.old result out.new }
{
    host_answers::whether(registry_order::check_order(m, set, order), out)
}
