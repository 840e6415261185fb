// What a program in C or Rust links: each function of `host`, exported under its name, with its parameters, its result and its
// clauses. What each answers is said there.
#![tactic(auto)]

ghost use Rattle.std.specs.Prelude.{◌≡◌};
ghost use Rattle.demands.specs.Starts.{blank};

use memory::WORDS;

mod admission;
mod child_slot;
mod keys;
mod lists;
mod order;
mod phases;
mod queries;
mod registration;
mod replacement;
mod retirement;
mod text;
mod value;

#[unsafe(no_mangle)]
pub extern "C" fn vaskelbi_open(m: &mut [u64; WORDS], domain: u64, first: u64)
    ensures { m.new ≡ blank m.old domain first }
{
    host::vaskelbi_open(m, domain, first)
}
