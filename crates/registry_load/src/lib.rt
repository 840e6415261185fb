// Document 02 [4]: the text read back. It is read into words of the function's own, and nothing is written to the registry before
// the last check has passed.
#![tactic(auto)]

ghost use Rattle.std.specs.Prelude.{◌≡◌, ◌≤◌, ◌<◌, length};
ghost use Rattle.rules.specs.Limits.{max_plugins};
ghost use Rattle.rules.specs.Load.{load};
ghost use Rattle.rules.specs.Answers.{done_answer};
ghost use Rattle.memory.specs.Layout.{places};
ghost use Rattle.memory.specs.Writes.{opened_with};
ghost use Rattle.memory_load.specs.Loading.{zeros};
ghost use Rattle.registry_load.specs.Join.{Rooms};
ghost use Rattle.registry_load.specs.Plugins.{JoinRead, PluginsRead};
ghost use Rattle.registry_load.specs.Whole.{HeaderRead, TextRead};
ghost use Rattle.registry_load.specs.Words.{Opens};

use memory::WORDS;
use registry_block::{Joined, Numbers};
use rules::{Refusal, limits};
use text_read_block::Lists;

// What the lines before the plugins say, and the place behind them.
#[derive(Clone, Copy)]
struct Header {
    domain: u64,
    first: u64,
    next: u64,
    count: u64,
    behind: usize,
}

fn count(words: &[u64]) -> usize
    ensures { result ≡ length words.now }
{
    words.len()
}

// What the types of lent words say of their lengths, for a proof. It compiles to nothing.
fn rooms(lists: &Lists)
    ensures { Rooms lists.now }
{
    let r = count(&lists.realms);
    let d = count(&lists.dependencies);
    let c = count(&lists.claims);
    let v = count(&lists.values);
}

// The block behind the plugins so far: its lists go to lent words, and its plugin to the next place, if it fits beside those before it.
fn join(
    w: &mut [u64; WORDS],
    text: &[u8],
    lists: &mut Lists,
    place: usize,
    so_far: Joined,
    next: u64,
) -> Option<Joined>
    requires { place < places }
    ensures { JoinRead text.now so_far.next w.old place so_far.from next so_far.rows result w.new }
{
    rooms(lists);
    let b = text_read_block::read_block(text, Some(so_far.next), lists)?;
    registry_block::join(
        w,
        &Numbers::of(&b),
        lists,
        place,
        so_far.rows,
        so_far.from,
        next,
    )
}

// So many blocks, from a place on: the place behind them.
fn plugins(
    w: &mut [u64; WORDS],
    text: &[u8],
    at: usize,
    count: usize,
    domain: u64,
    first: u64,
    next: u64,
) -> Option<usize>
    requires opened { w.old ≡ opened_with zeros domain first next }
    requires in_text { (at ≤ length text.now) × (count ≤ max_plugins) × (first ≤ next) }
    ensures { PluginsRead text.now at count domain first next result w.new }
{
    let mut lists = Lists::EMPTY;
    let mut so_far = Joined {
        next: at,
        rows: 0,
        from: first,
    };
    for k in 0..count {
        so_far = join(w, text, &mut lists, k, so_far, next)?;
    }
    Some(so_far.next)
}

// The lines before the plugins.
fn read_header(text: &[u8]) -> Option<Header>
    ensures { HeaderRead text.now result }
{
    let (domain, at) = text_read::number_line(text, Some(0), b"domain=")?;
    let (first, at) = text_read::number_line(text, Some(at), b"first=")?;
    let (next, at) = text_read::number_line(text, Some(at), b"next=")?;
    let (count, behind) = text_read::number_line(text, Some(at), b"plugins=")?;
    Some(Header {
        domain,
        first,
        next,
        count,
        behind,
    })
}

// The domain of the whole text, which is read into words of zeros.
fn read(w: &mut [u64; WORDS], domain: u64, text: &[u8]) -> Option<u64>
    requires { w.old ≡ zeros }
    ensures { TextRead text.now domain result w.new }
{
    let h = read_header(text)?;
    if (limits::PLUGINS as u64) < h.count {
        return None;
    }
    if h.next < h.first {
        return None;
    }
    memory::open_words(w, domain, h.first, h.next);
    let end = plugins(w, text, h.behind, h.count as usize, domain, h.first, h.next)?;
    let more = end < text.len();
    if more {
        return None;
    }
    if !registry_cycles::all_hold(w) {
        return None;
    }
    Some(h.domain)
}

// 24 where the text says no registry; 25 where the domain is the text's.
pub fn load(m: &mut [u64; WORDS], domain: u64, text: &[u8]) -> Result<(), Refusal>
    ensures { Opens m.old (load domain text.now) (done_answer result) m.new }
{
    let mut w = [0u64; WORDS];
    let own = read(&mut w, domain, text).ok_or(Refusal::BadText)?;
    let same = own == domain;
    if same {
        return Err(Refusal::SameDomain);
    }
    memory_load::copy_words(m, &w);
    Ok(())
}
