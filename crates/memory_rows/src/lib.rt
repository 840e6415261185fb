// The rows of the registry's memory. A plugin's rows stand together; where one goes, those behind it come down.
#![tactic(auto)]

ghost use Rattle.std.specs.Prelude.{◌≡◌, ◌<◌, ◌≤◌, ◌+◌, ◌%◌};
ghost use Rattle.rules.specs.Limits.{max_rows, max_plugin_rows};
ghost use Rattle.memory.specs.Layout.{places};
ghost use Rattle.memory_places.specs.Rows.{rows_at};
ghost use Rattle.memory_rows.specs.Moves.{closed_gap, lowered_at, lower_from, later, last_from, freed_place};

use memory::layout::{PLACE_WORDS, PLACES, ROW_WORDS, ROWS_START};
use memory::{WORDS, layout};
use rules::limits;

// A place, and the start of its rows before it came down.
#[derive(Clone, Copy)]
struct Last {
    place: usize,
    start: usize,
}

// A start behind a gap comes down; any other is not written. Its place is the last one, if it is taken and its rows stand later than
// those of the last one so far.
fn lower_start(m: &mut [u64; WORDS], place: usize, end: usize, count: usize, last: Last) -> Last
    requires { (count ≤ end) × (place < places) }
    ensures { (m.new ≡ lowered_at m.old end count place) × (result ≡ later m.old end place last) }
{
    let at = place * PLACE_WORDS + layout::FIRST_ROW;
    let start = m[at] as usize;
    if start < end {
        return last;
    }
    m[at] = (start - count) as u64;
    if memory::is_taken(m, place) {
        if last.start < start {
            return Last { place, start };
        }
    }
    last
}

// The starts behind a gap come down. Of one place and the taken ones behind the gap, the one whose rows stand last is told: all rows
// end with its own.
fn lower_starts(m: &mut [u64; WORDS], end: usize, count: usize, first: Last) -> Last
    requires { count ≤ end }
    ensures { (m.new ≡ lower_from places m.old end count 0) × (result ≡ last_from places m.old end 0 first) }
{
    let mut last = first;
    for i in 0..PLACES {
        last = lower_start(m, i, end, count, last);
    }
    last
}

// The rows behind a gap move down over it.
fn close_gap(m: &mut [u64; WORDS], start: usize, count: usize, end: usize)
    requires { (start + count ≤ max_rows + max_plugin_rows) × (end < max_rows + max_plugin_rows) }
    ensures { m.new ≡ closed_gap m.old start count end }
{
    if end < start + count {
        return;
    }
    let k = count * ROW_WORDS;
    let stop = (end - count) * ROW_WORDS + ROWS_START;
    for j in start * ROW_WORDS + ROWS_START..stop {
        m[j] = m[j + k];
    }
}

// How many rows a place has: dependencies, anchor and provisions.
fn rows_of(m: &[u64; WORDS], place: usize) -> usize
    ensures { result ≡ rows_at m.now (place % places) }
{
    memory_lists::dependencies(m, place) + memory_lists::provisions(m, place) + 1
}

// A place and its rows are free again. Where its rows stand last, none are moved.
pub fn free_place(m: &mut [u64; WORDS], place: usize)
    ensures { m.new ≡ freed_place m.old (place % places) }
{
    let p = place % PLACES;
    if memory::is_taken(m, p) {
        let start = memory_lists::start(m, p);
        let count = rows_of(m, p);
        let first = Last { place: p, start };
        let last = lower_starts(m, start + count, count, first);
        if last.place != p {
            let end = last.start % limits::ROWS + rows_of(m, last.place);
            close_gap(m, start, count, end);
        }
        memory_places::vacate(m, p);
    }
}
