// An index with the memory that it is of.
ghost use Rattle.std.specs.Prelude.{◌≡◌};
ghost use Rattle.memory_providers.specs.Providers.{provider_at};
ghost use Rattle.memory_index.specs.Index.{index_of};
ghost use Rattle.memory_index.specs.Indexed.{Indexed};

use crate::{REMAINDERS, index, provider_by};
use memory::WORDS;
use rules::Port;

// An index of a memory's taken places. What a lookup finds by it is what a search of all places finds.
#[derive(Clone, Copy)]
pub struct Index<'a> {
    pub memory: &'a [u64; WORDS],
    words: [u32; REMAINDERS],
    ghost finds: { Indexed memory.now words },
}

impl<'a> Index<'a> {
    pub fn new(memory: &'a [u64; WORDS]) -> Index<'a>
        ensures memory { result.memory.now ≡ memory.now }
        ensures words { result.words ≡ index_of memory.now }
    {
        Index {
            memory,
            words: index(memory),
        }
    }

    // The place of the port's provider: the first of those that the index has for the key whose plugin provides it.
    pub fn provider(&self, port: Port) -> Option<usize>
        ensures { result ≡ provider_at self.now.memory.now port }
    {
        provider_by(self.memory, &self.words, port)
    }
}
