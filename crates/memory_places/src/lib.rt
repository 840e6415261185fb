// The 32 plugin places: one occupancy word. Its ones are the registered count, the trailing zeros of its complement the lowest free place.
#![tactic(auto)]

ghost use Rattle.std.specs.Prelude.{◌≡◌, ◌<◌, ◌≤◌, ◌*◌, ◌/◌, ◌%◌, ◌^◌};
ghost use Rattle.rules.specs.Holds.{count, rows_in_use};
ghost use Rattle.rules.specs.Outcomes.{answer_of};
ghost use Rattle.rules.specs.Queries.{id_from};
ghost use Rattle.rules.specs.Limits.{max_plugin_rows};
ghost use Rattle.rules.specs.Answers.{option_answer};
ghost use Rattle.memory.specs.Layout.{occupancy, id_at, places};
ghost use Rattle.memory.specs.View.{view};
ghost use Rattle.memory_places.specs.Changes.{free_at, occupied_at, vacated_at};
ghost use Rattle.memory_places.specs.Rows.{rows_by, rows_from};
ghost use Rattle.memory_places.specs.Lowest.{lower_at, last_of};

use memory::layout::PLACES;
use memory::{WORDS, layout};

// How many plugins are registered.
pub fn registered(m: &[u64; WORDS]) -> u64
    ensures { result ≡ count (view m.now) }
{
    u32::count_ones(memory::occupied(m)) as u64
}

// The lowest free place.
pub fn lowest_free(m: &[u64; WORDS]) -> Option<usize>
    ensures { result ≡ free_at m.now }
{
    let place = u32::trailing_zeros(!memory::occupied(m)) as usize;
    if place < PLACES { Some(place) } else { None }
}

// The free place is taken.
pub fn occupy(m: &mut [u64; WORDS], place: usize)
    ensures { m.new ≡ occupied_at m.old place }
{
    if PLACES <= place {
        return;
    }
    if memory::is_taken(m, place) {
        return;
    }
    let word = memory::occupied(m) | 1 << place;
    m[layout::OCCUPANCY] = word as u64;
}

// The taken place is free again.
pub fn vacate(m: &mut [u64; WORDS], place: usize)
    ensures { m.new ≡ vacated_at m.old place }
{
    if memory::is_taken(m, place) {
        let word = memory::occupied(m) - (1 << place);
        m[layout::OCCUPANCY] = word as u64;
    }
}

// The rows of a place that is taken, by the lowest bit of a word.
fn rows_at(m: &[u64; WORDS], place: usize, word: u32) -> usize
    ensures { (result ≤ max_plugin_rows) × (result ≡ rows_by word m.now (place % places)) }
{
    if word % 2 == 1 {
        memory_lists::dependencies(m, place) + memory_lists::provisions(m, place) + 1
    } else {
        0
    }
}

// The rows of four places; the word's lowest bits are theirs.
fn rows_of_four(m: &[u64; WORDS], place: usize, word: u32) -> usize
    requires { (place < 29) × (word ≡ occupancy m.now / 2 ^ place) }
    ensures { (result ≤ max_plugin_rows * 4) × (result ≡ rows_from 4 m.now place) }
{
    let first = rows_at(m, place, word);
    let second = rows_at(m, place + 1, word / 2);
    let third = rows_at(m, place + 2, word / 4);
    let fourth = rows_at(m, place + 3, word / 8);
    first + second + third + fourth
}

// The rows in use, counted from the plugins' lists.
pub fn rows_in_use(m: &[u64; WORDS]) -> usize
    ensures { result ≡ rows_in_use (view m.now) }
{
    let mut word = memory::occupied(m);
    let mut total: usize = 0;
    for k in 0..8 {
        total += rows_of_four(m, k * 4, word);
        word /= 16;
    }
    total
}

// The lowest registered id at or above a number. The last id of all stands for none so far, so it is looked for at the end.
pub fn id_from(m: &[u64; WORDS], number: u64) -> Option<u64>
    ensures { option_answer result ≡ answer_of (id_from (view m.now) number) }
{
    let mut lowest = u64::MAX;
    for i in 0..PLACES {
        lowest = lower(m, i, number, lowest);
    }
    if lowest == u64::MAX {
        return last(m);
    }
    Some(lowest)
}

// The last id of all, if it is registered.
fn last(m: &[u64; WORDS]) -> Option<u64>
    ensures { result ≡ last_of m.now }
{
    let Some(_) = memory::find(m, u64::MAX) else {
        return None;
    };
    Some(u64::MAX)
}

// The id of a taken place, if it is at or above the number and lower than another: that is asked first, as few are. No id is above 2^64 − 1.
fn lower(m: &[u64; WORDS], place: usize, number: u64, other: u64) -> u64
    requires { place < places }
    ensures { (id_at m.now place < 2 ^ 64) × (result ≡ lower_at number m.now place other) }
{
    let id = memory::id(m, place);
    if id < other {
        if memory::is_taken(m, place) {
            if number <= id {
                return id;
            }
        }
    }
    other
}
