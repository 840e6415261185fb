// The registry's memory: one array of words that the caller lends. Every function takes any words; a place is read modulo 32.
#![tactic(auto)]

ghost use Rattle.std.specs.Prelude.{◌≡◌, ◌-◌, ◌%◌, ◌≤◌, ◌<◌, eqb, ok_or};
ghost use Rattle.rules.specs.Basics.{holds};
ghost use Rattle.rules.specs.Refusals.{Unknown};
ghost use Rattle.memory.specs.Layout.{word, occupancy, taken, id_at, places, domain_word, first_word, next_word};
ghost use Rattle.memory.specs.Lives.{changed_life, moved_life, begun_life, finished_life, rooted_life, marked_life};
ghost use Rattle.memory.specs.View.{parent_of, parent_at};
ghost use Rattle.memory.specs.Writes.{names_at, find_from, find_at, SameId, opened_with};

use layout::{LOW_HALF, PLACE_WORDS, PLACES};
use rules::{Generation, Phase, Refusal, Root};

pub mod layout;

// As many as the hosts' declarations say.
pub const WORDS: usize = 4488;

// What operations on one plugin change, but for its values.
#[derive(Clone, Copy)]
pub struct Life {
    pub revision: u64,
    pub payload: u64,
    pub phase: Phase,
    pub retired: bool,
    pub generation: Generation,
    pub root: Root,
}

impl Life {
    pub fn with_phase(self, phase: Phase) -> Life
        ensures { result ≡ moved_life self phase }
    {
        Life { phase, ..self }
    }

    // Generation + 1, root Unissued.
    pub fn begun(self, phase: Phase) -> Life
        ensures { result ≡ begun_life self phase }
    {
        Life {
            phase,
            generation: self.generation.next(),
            root: Root::Unissued,
            ..self
        }
    }

    // Root Unissued.
    pub fn finished(self, phase: Phase) -> Life
        ensures { result ≡ finished_life self phase }
    {
        let root = Root::Unissued;
        Life {
            phase,
            root,
            ..self
        }
    }

    pub fn with_root(self, root: Root) -> Life
        ensures { result ≡ rooted_life self root }
    {
        Life { root, ..self }
    }

    // With the retired mark.
    pub fn marked(self) -> Life
        ensures { result ≡ marked_life self }
    {
        Life {
            retired: true,
            ..self
        }
    }
}

// A plugin's life as it stands in the words.
#[derive(Clone, Copy)]
pub struct Words {
    pub revision: u64,
    pub payload: u64,
    pub phase: u64,
    pub retired: u64,
    pub generation: u64,
    pub root: u64,
    pub root_revision: u64,
    pub root_argument: u64,
}

pub fn domain(m: &[u64; WORDS]) -> u64
    ensures { result ≡ word m.now domain_word }
{
    m[layout::DOMAIN]
}

pub fn first_id(m: &[u64; WORDS]) -> u64
    ensures { result ≡ word m.now first_word }
{
    m[layout::FIRST]
}

pub fn next_id(m: &[u64; WORDS]) -> u64
    ensures { result ≡ word m.now next_word }
{
    m[layout::NEXT]
}

// The occupancy word.
pub fn occupied(m: &[u64; WORDS]) -> u32
    ensures { result ≡ occupancy m.now }
{
    (m[layout::OCCUPANCY] % LOW_HALF) as u32
}

// Whether the place is taken.
pub fn is_taken(m: &[u64; WORDS], place: usize) -> bool
    ensures { result ≡ taken m.now place }
{
    place < PLACES && (occupied(m) >> place) % 2 == 1
}

// Whether the plugin of this place has the id: that is asked first, as few places have it.
fn names(m: &[u64; WORDS], place: usize, id: u64) -> bool
    requires { place < places }
    ensures { result ≡ names_at m.now id place }
{
    if m[place * PLACE_WORDS + layout::ID] == id {
        is_taken(m, place)
    } else {
        false
    }
}

// The first place whose word has the id, taken or not; past the last where there is none. Its loop has one test, and goes straight on
// where that fails, as it does at all places but one.
fn same_id(m: &[u64; WORDS], id: u64) -> usize
    ensures { SameId m.now id result }
{
    for i in 0..PLACES {
        if m[i * PLACE_WORDS + layout::ID] == id {
            return i;
        }
    }
    PLACES
}

// The place of the plugin with the id, from a place on.
fn find_from(m: &[u64; WORDS], id: u64, from: usize) -> Option<usize>
    requires { from ≤ places }
    ensures { result ≡ find_from (places - from) m.now id from }
{
    for i in from..PLACES {
        if names(m, i, id) {
            return Some(i);
        }
    }
    None
}

// The place of the plugin with the id. A free place may have the id of a plugin that went.
pub fn find(m: &[u64; WORDS], id: u64) -> Option<usize>
    ensures { result ≡ find_at m.now id }
{
    let at = same_id(m, id);
    if is_taken(m, at) {
        return Some(at);
    }
    if at < PLACES {
        return find_from(m, id, at + 1);
    }
    None
}

// The same, for an operation that refuses an id that no plugin has.
pub fn look_up(m: &[u64; WORDS], id: u64) -> Result<usize, Refusal>
    ensures { result ≡ ok_or (find_at m.now id) Unknown }
{
    find(m, id).ok_or(Refusal::Unknown)
}

pub fn id(m: &[u64; WORDS], place: usize) -> u64
    ensures { result ≡ id_at m.now (place % places) }
{
    let b = place % PLACES * PLACE_WORDS;
    m[b + layout::ID]
}

// The header of a memory with no plugin: all places are free.
pub fn open_words(m: &mut [u64; WORDS], domain: u64, first: u64, next: u64)
    ensures { m.new ≡ opened_with m.old domain first next }
{
    m[layout::DOMAIN] = domain;
    m[layout::FIRST] = first;
    m[layout::NEXT] = next;
    m[layout::OCCUPANCY] = 0;
}

// The parent that two words say: a tag of 0 is none.
pub fn parent_from(tag: u64, id: u64) -> Option<u64>
    ensures { result ≡ parent_of tag id }
{
    if tag == 0 { None } else { Some(id) }
}

// The parent's id, or none.
pub fn parent_of(m: &[u64; WORDS], place: usize) -> Option<u64>
    ensures { result ≡ parent_at m.now (place % places) }
{
    let b = place % PLACES * PLACE_WORDS;
    parent_from(m[b + layout::TAG], m[b + layout::PARENT])
}

// Whether the plugin of this place has the id as parent.
pub fn is_child_of(m: &[u64; WORDS], place: usize, id: u64) -> bool
    ensures { result ≡ holds (eqb id) (parent_at m.now (place % places)) }
{
    let b = place % PLACES * PLACE_WORDS;
    m[b + layout::TAG] != 0 && id == m[b + layout::PARENT]
}
