// The console's start orders: what stands behind the word `check`, and what the line of `plan` says.
#![tactic(auto)]

ghost use Rattle.std.specs.Prelude.{◌≡◌};
ghost use Rattle.console_operations.specs.Carried.{Answers};
ghost use Rattle.console_order.specs.Checks.{sets_in, Two, checking};
ghost use Rattle.console_order.specs.Plans.{planned_on, lent_ids};

use console_answer::Page;
use console_names::{BAD, Values};
use host_answers::ANSWER;
use memory::WORDS;
use memory::layout::PLACES;

// How many numbers the two lists have.
#[derive(Clone, Copy)]
struct Sets {
    set: usize,
    order: usize,
}

// The two lists, one behind the other, each at the front of its array. Nothing stands behind them.
fn two_lists(
    bytes: &[u8],
    from: usize,
    set: &mut [u64; 2048],
    order: &mut [u64; 2048],
) -> Option<Sets>
    ensures { Two bytes.now from set.old set.new order.old order.new result }
{
    let Ok(first) = console_definition::list_behind(bytes, from, b"set", set) else {
        return None;
    };
    let Ok(second) = console_definition::list_behind(bytes, first.stop, b"order", order) else {
        return None;
    };
    let ends = second.stop == bytes.len();
    if !ends {
        return None;
    }
    Some(Sets {
        set: first.count,
        order: second.count,
    })
}

// What stands behind the word `check`: a set and an order.
pub fn checked(m: &[u64; WORDS], bytes: &[u8], from: usize, out: &mut [u64; ANSWER]) -> u64
    ensures { Answers m.now (checking (sets_in bytes.now from)) out.old result out.new }
{
    let mut set = [0u64; 2048];
    let mut order = [0u64; 2048];
    let Some(lists) = two_lists(bytes, from, &mut set, &mut order) else {
        return BAD;
    };
    host::vaskelbi_check_order(m, &set[..lists.set], &order[..lists.order], out)
}

// The order's ids in a lent room, or what else the registry answered.
fn planned_in(m: &[u64; WORDS], set: &[u64], room: &mut [u64], page: &mut Page)
    ensures { page.new ≡ planned_on page.old m.now set.now room.old }
{
    let mut out = [0u64; ANSWER];
    let status = host::vaskelbi_plan_order(m, set, room, &mut out);
    if out[0] == 0 {
        console_show::spoken(page, Values::NumbersOrNone, status, &out);
        return;
    }
    page.put(b"ok");
    page.numbers(memory_lists::some_words(room, 0, out[1] as usize));
}

// A room of so many ids is lent, or of 32: no order has more.
pub fn planned(m: &[u64; WORDS], size: u64, set: &[u64], page: &mut Page)
    ensures { page.new ≡ planned_on page.old m.now set.now (lent_ids size) }
{
    let mut room = [0u64; PLACES];
    let most = PLACES.min(size as usize);
    planned_in(m, set, &mut room[..most], page);
}
