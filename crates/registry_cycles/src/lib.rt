// Document 02 [4]: what is asked of all plugins of a text at the end. Their ports differ, and what running ones depend on is provided by
// Active ones, without cycles. Each dependency's provider is looked up once.
#![tactic(auto)]

ghost use Rattle.std.specs.Prelude.{◌≡◌, ◌<◌, ◌%◌};
ghost use Rattle.rules.specs.Ports.{pairs};
ghost use Rattle.memory.specs.Layout.{places};
ghost use Rattle.memory.specs.View.{view};
ghost use Rattle.memory_providers.specs.Words.{word_of};
ghost use Rattle.registry_cycles.specs.Hold.{all_hold};
ghost use Rattle.registry_cycles.specs.Left.{waiting, waits_at, none_waiting};
ghost use Rattle.registry_cycles.specs.Rows.{row_of, row_at};
ghost use Rattle.registry_cycles.specs.Runs.{runs_at, RowsFilled};

use memory::WORDS;
use memory::layout::PLACES;
use memory_index::Index;
use rules::Port;

// Whether this place is taken and its plugin is Loading or Active.
fn runs(m: &[u64; WORDS], place: usize) -> bool
    ensures { result ≡ runs_at m.now place }
{
    memory::is_taken(m, place) && registry_needs::is_running(memory_life::load(m, place))
}

// The places whose plugin runs, a bit for each.
fn running(m: &[u64; WORDS]) -> u32
    ensures { result ≡ word_of (runs_at m.now) places 0 }
{
    let mut word: u32 = 0;
    for i in (0..PLACES).rev() {
        word = word * 2 + runs(m, i) as u32;
    }
    word
}

// The places of the providers of a list of ports, a bit for each, all of them Active; none where a port has no such provider.
fn row_of(index: &Index<'_>, ports: &[u64]) -> Option<u32>
    ensures { result ≡ row_of index.now.memory.now (pairs ports.now) }
{
    let mut row: u32 = 0;
    for pair in ports.chunks_exact(2) {
        let port = Port {
            key: pair[0],
            realm: pair[1],
        };
        let at = index.provider(port)?;
        if !registry_needs::is_active(memory_life::load(index.memory, at)) {
            return None;
        }
        row |= 1 << at;
    }
    Some(row)
}

// The row of what a place's plugin depends on, if the place is among those of a word.
fn row_at(index: &Index<'_>, among: u32, place: usize) -> Option<u32>
    requires { place < places }
    ensures { result ≡ row_at index.now.memory.now among place }
{
    if (among >> place) % 2 == 1 {
        row_of(index, memory_lists::dependency_words(index.memory, place))
    } else {
        Some(0)
    }
}

// The rows of all places of a word; false where one has none.
fn fill_rows(m: &[u64; WORDS], among: u32, rows: &mut [u32; PLACES]) -> bool
    ensures { RowsFilled m.now among result rows.new }
{
    let index = Index::new(m);
    for i in 0..PLACES {
        let Some(row) = row_at(&index, among, i) else {
            return false;
        };
        rows[i] = row;
    }
    true
}

// Whether a place is left and needs one that is left.
fn waits(row: u32, left: u32, place: usize) -> bool
    requires { place < places }
    ensures { result ≡ waiting row left place }
{
    (left >> place) % 2 == 1 && row & left != 0
}

// One round: whoever needs none that is left is taken away.
fn still_waiting(rows: &[u32; PLACES], left: u32) -> u32
    ensures { result ≡ word_of (waits_at rows.now left) places 0 }
{
    let mut word: u32 = 0;
    for i in (0..PLACES).rev() {
        word = word * 2 + waits(rows[i], left, i) as u32;
    }
    word
}

// Whether all are taken away. Where none is left there is none to take away, and a round that takes none away is the last.
fn none_waiting(rows: &[u32; PLACES], among: u32) -> bool
    ensures { result ≡ none_waiting places rows.now among }
{
    let mut left = among;
    for _ in 0..PLACES {
        if left == 0 {
            return true;
        }
        let next = still_waiting(rows, left);
        if next == left {
            return left == 0;
        }
        left = next;
    }
    left == 0
}

// The ports first: where they differ, a port's first provider is its only one.
pub fn all_hold(m: &[u64; WORDS]) -> bool
    ensures { result ≡ all_hold (view m.now) }
{
    if !registry_claims::differ(m) {
        return false;
    }
    let among = running(m);
    let mut rows = [0u32; PLACES];
    if !fill_rows(m, among, &mut rows) {
        return false;
    }
    none_waiting(&rows, among)
}
