// Words that are read from a text: a plugin with its life and values at its place, and the whole copied.
#![tactic(auto)]

ghost use Rattle.std.specs.Prelude.{◌≡◌, ◌%◌};
ghost use Rattle.memory.specs.Layout.{places};
ghost use Rattle.memory_load.specs.Loading.{loaded_place};

use memory::{Life, WORDS};
use memory_entry::Entry;

// A plugin is written to a place, which is taken then: as a new one, and then its life and its values.
pub fn load_place(
    m: &mut [u64; WORDS],
    place: usize,
    e: Entry,
    life: Life,
    realms: &[u64],
    dependencies: &[u64],
    claims: &[u64],
    mask: u64,
    values: &[u64],
)
    ensures { m.new ≡ loaded_place m.old (place % places) e life
        realms.now dependencies.now claims.now mask values.now }
{
    memory_entry::fill_place(m, place, e, realms, dependencies, claims);
    memory_life::store(m, place, life);
    memory_values::put_values(m, place, mask, values);
}

// All words of another memory.
pub fn copy_words(m: &mut [u64; WORDS], from: &[u64; WORDS])
    ensures { m.new ≡ from.now }
{
    *m = *from;
}
