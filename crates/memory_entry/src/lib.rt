// A new plugin in the registry's memory: its rows behind all others, its words at its place, and the place taken.
#![tactic(auto)]

ghost use Rattle.std.specs.Prelude.{◌≡◌, ◌∷◌, ◌+◌, ◌*◌, ◌%◌, ◌<◌};
ghost use Rattle.memory.specs.Writes.{puts};
ghost use Rattle.memory.specs.Layout.{place_words, places, id_word, edition_word};
ghost use Rattle.memory_entry.specs.Entries.{entry_words, filled_place};

use memory::layout::{PLACE_WORDS, PLACES, ROW_WORDS, ROWS_START};
use memory::{WORDS, layout};
use rules::{Generation, limits};

// The most words of a dependency list.
const LIST_WORDS: usize = limits::DEPENDENCIES * ROW_WORDS;

// What is written of a new plugin beside its lists. A tag of 0 says that it has no parent.
#[derive(Clone, Copy)]
pub struct Entry {
    pub id: u64,
    pub tag: u64,
    pub parent: u64,
    pub payload: u64,
    pub start: u64,
    pub dependencies: u64,
    pub provisions: u64,
    pub realms: u64,
    pub edition: u64,
    pub default: u64,
    pub next: u64,
}

// Numbers to the front of a lent part; what has no room there is left out. A loop, for `copy_from_slice` would make the archive need
// `memmove`.
fn put_front(out: &mut [u64], words: &[u64])
    ensures { out.new ≡ puts out.old 0 0 words.now }
{
    let count = words.len().min(out.len());
    for k in 0..count {
        out[k] = words[k];
    }
}

// Numbers from a word on: the tail is lent, so that no word asks for its room.
fn put_words(m: &mut [u64], from: usize, words: &[u64])
    ensures { m.new ≡ puts m.old from 0 words.now }
{
    if from < m.len() {
        put_front(&mut m[from..], words);
    }
}

// A realm list: its edition and default, and the rows behind them.
fn put_realms(m: &mut [u64; WORDS], place: usize, edition: u64, default: u64, rows: &[u64])
    requires { place < places }
    ensures { m.new ≡ puts m.old (place * place_words + edition_word) 0 (edition ∷ default ∷ rows.now) }
{
    let b = place * PLACE_WORDS;
    m[b + layout::EDITION] = edition;
    m[b + layout::DEFAULT] = default;
    put_words(m, b + layout::REALM_ROWS, rows);
}

fn store_entry(m: &mut [u64; WORDS], place: usize, e: Entry)
    requires { place < places }
    ensures { m.new ≡ puts m.old (place * place_words) id_word (entry_words e) }
{
    let b = place * PLACE_WORDS;
    m[b + layout::ID] = e.id;
    m[b + layout::TAG] = e.tag;
    m[b + layout::PARENT] = e.parent;
    m[b + layout::REVISION] = 0;
    m[b + layout::PAYLOAD] = e.payload;
    m[b + layout::PHASE] = 0;
    m[b + layout::RETIRED] = 0;
    m[b + layout::GENERATION] = Generation::NEVER_BEGUN.0;
    m[b + layout::ROOT] = 0;
    m[b + layout::ROOT_REVISION] = 0;
    m[b + layout::ROOT_ARGUMENT] = 0;
    m[b + layout::FIRST_ROW] = e.start;
    m[b + layout::DEPENDENCIES] = e.dependencies;
    m[b + layout::PROVISIONS] = e.provisions;
    m[b + layout::REALMS] = e.realms;
    m[b + layout::MASK] = 0;
}

// A plugin is written to a place, which is taken then.
pub fn fill_place(
    m: &mut [u64; WORDS],
    place: usize,
    e: Entry,
    realms: &[u64],
    dependencies: &[u64],
    claims: &[u64],
)
    ensures { m.new ≡ filled_place m.old (place % places) e
        dependencies.now claims.now realms.now }
{
    let start = e.start;
    if limits::ROWS < start as usize {
        return;
    }
    if LIST_WORDS < dependencies.len() {
        return;
    }
    let p = place % PLACES;
    let row = (start as usize) * ROW_WORDS + ROWS_START;
    put_words(m, row, dependencies);
    put_words(m, row + dependencies.len(), claims);
    put_realms(m, p, e.edition, e.default, realms);
    store_entry(m, p, e);
    m[layout::NEXT] = e.next;
    memory_places::occupy(m, p);
}
