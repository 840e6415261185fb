// A plugin's life, loaded from its words and stored to them. A place is read modulo 32.
#![tactic(auto)]

ghost use Rattle.std.specs.Prelude.{◌≡◌, ◌%◌, ◌<◌};
ghost use Rattle.memory.specs.View.{phase_of, root_of, words_at, decoded, life_at};
ghost use Rattle.memory.specs.Writes.{put_words, encoded, put_life, renewed_at};
ghost use Rattle.memory.specs.Layout.{places};

use memory::layout::{PLACE_WORDS, PLACES};
use memory::{Life, WORDS, Words, layout};
use rules::{Generation, Phase, Root};

// A phase by its number; any number above 3 is read as 3.
pub fn phase_of(w: u64) -> Phase
    ensures { result ≡ phase_of w }
{
    match w {
        0 => Phase::Idle,
        1 => Phase::Loading,
        2 => Phase::Active,
        _ => Phase::Unloading,
    }
}

fn root_of(tag: u64, revision: u64, argument: u64) -> Root
    ensures { result ≡ root_of tag revision argument }
{
    match tag {
        0 => Root::Unissued,
        1 => Root::Queued(revision, argument),
        _ => Root::Spent,
    }
}

fn load_words(m: &[u64; WORDS], place: usize) -> Words
    requires { place < places }
    ensures { result ≡ words_at m.now place }
{
    let b = place * PLACE_WORDS;
    Words {
        revision: m[b + layout::REVISION],
        payload: m[b + layout::PAYLOAD],
        phase: m[b + layout::PHASE],
        retired: m[b + layout::RETIRED],
        generation: m[b + layout::GENERATION],
        root: m[b + layout::ROOT],
        root_revision: m[b + layout::ROOT_REVISION],
        root_argument: m[b + layout::ROOT_ARGUMENT],
    }
}

fn store_words(m: &mut [u64; WORDS], place: usize, w: Words)
    requires { place < places }
    ensures { m.new ≡ put_words m.old place w }
{
    let b = place * PLACE_WORDS;
    m[b + layout::REVISION] = w.revision;
    m[b + layout::PAYLOAD] = w.payload;
    m[b + layout::PHASE] = w.phase;
    m[b + layout::RETIRED] = w.retired;
    m[b + layout::GENERATION] = w.generation;
    m[b + layout::ROOT] = w.root;
    m[b + layout::ROOT_REVISION] = w.root_revision;
    m[b + layout::ROOT_ARGUMENT] = w.root_argument;
}

// The life that words say.
pub fn decode(w: Words) -> Life
    ensures { result ≡ decoded w }
{
    Life {
        revision: w.revision,
        payload: w.payload,
        phase: phase_of(w.phase),
        retired: w.retired != 0,
        generation: Generation::of(w.generation),
        root: root_of(w.root, w.root_revision, w.root_argument),
    }
}

fn encode(life: Life) -> Words
    ensures { result ≡ encoded life }
{
    let (root, root_revision, root_argument) = match life.root {
        Root::Unissued => (0, 0, 0),
        Root::Queued(revision, argument) => (1, revision, argument),
        Root::Spent => (2, 0, 0),
    };
    Words {
        revision: life.revision,
        payload: life.payload,
        phase: life.phase.number(),
        retired: life.retired as u64,
        generation: life.generation.0,
        root,
        root_revision,
        root_argument,
    }
}

pub fn load(m: &[u64; WORDS], place: usize) -> Life
    ensures { result ≡ life_at m.now (place % places) }
{
    decode(load_words(m, place % PLACES))
}

pub fn store(m: &mut [u64; WORDS], place: usize, life: Life)
    ensures { m.new ≡ put_life m.old (place % places) life }
{
    store_words(m, place % PLACES, encode(life))
}

// Revision and payload alone, where they lie.
pub fn renew(m: &mut [u64; WORDS], place: usize, revision: u64, payload: u64)
    ensures { m.new ≡ renewed_at m.old (place % places) revision payload }
{
    let b = place % PLACES * PLACE_WORDS;
    m[b + layout::REVISION] = revision;
    m[b + layout::PAYLOAD] = payload;
}
