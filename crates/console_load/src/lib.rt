// A load from the console: which line awaits a text, and what is said and left once the text has come.
#![tactic(auto)]

ghost use Rattle.std.specs.Prelude.{◌≡◌};
ghost use Rattle.console_names.specs.Behind.{numbers_behind};
ghost use Rattle.console_load.specs.Awaited.{as_many, awaited_by, awaited_in, awaited};
ghost use Rattle.console_load.specs.Loaded.{Ends, load_status, load_left, load_ended};

use console_answer::{Page, TEXT_ROOM};
use console_names::{BAD, Count, Kind, Row, Values};
use console_words::LINE;
use host_answers::ANSWER;
use memory::WORDS;

// A text of so many bytes, for a registry in this domain.
#[derive(Clone, Copy)]
pub struct Awaited {
    pub domain: u64,
    pub length: u64,
}

// The numbers behind the name are domain and length.
fn numbers_await(count: Count, bytes: &[u8], from: usize) -> Option<Awaited>
    ensures { result ≡ as_many count (numbers_behind bytes.now from) }
{
    let mut n = [0u64; 2048];
    let Ok(given) = console_names::numbers(bytes, from, &mut n) else {
        return None;
    };
    if !console_names::takes(count, given) {
        return None;
    }
    let l = &n[..given];
    Some(Awaited {
        domain: console_names::nth(l, 0),
        length: console_names::nth(l, 1),
    })
}

fn row_awaits(row: Row, bytes: &[u8], from: usize) -> Option<Awaited>
    ensures { result ≡ awaited_by row bytes.now from }
{
    match row {
        Row::Takes(count, Kind::Load) => numbers_await(count, bytes, from),
        _ => None,
    }
}

// The first word is the operation's name.
#[tactic(auto, unfolding(crate::specs::Awaited::awaited_in))]
fn words_await(bytes: &[u8]) -> Option<Awaited>
    ensures { result ≡ awaited_in bytes.now }
{
    let word = console_words::next_word(bytes, 0);
    let place = console_names::operation(&bytes[word.start..word.stop]);
    row_awaits(console_names::row_at(place), bytes, word.stop)
}

// A line is at its end, of which so many bytes came: what it awaits behind it, if it does.
#[tactic(auto, unfolding(crate::specs::Awaited::awaited))]
pub fn awaits(line: &[u8; LINE], filled: usize) -> Option<Awaited>
    ensures { result ≡ awaited line.now filled }
{
    if filled == 0 {
        return None;
    }
    if line[0] == b'#' {
        return None;
    }
    if LINE < filled {
        return None;
    }
    words_await(console_answer::front(line, filled))
}

// A text that is too long is passed over, and not loaded.
fn carried_out(m: &mut [u64; WORDS], awaited: Awaited, bytes: &[u8]) -> u64
    ensures { (result ≡ load_status awaited.domain awaited.length bytes.now)
        × (m.new ≡ load_left m.old awaited.domain awaited.length bytes.now) }
{
    let too_long = TEXT_ROOM < awaited.length as usize;
    if too_long {
        return BAD;
    }
    host::vaskelbi_load(m, awaited.domain, bytes)
}

// The text of a load has come: its registry takes the old one's place, or why not; of one that is too long, that it is bad.
#[tactic(auto, unfolding(crate::specs::Loaded::load_ended))]
pub fn loaded(m: &mut [u64; WORDS], awaited: Awaited, bytes: &[u8], page: &mut Page)
    ensures { Ends (load_ended page.old m.old awaited.domain awaited.length bytes.now) page.new m.new }
{
    let out = [0u64; ANSWER];
    let status = carried_out(m, awaited, bytes);
    console_show::spoken(page, Values::None, status, &out);
    page.put(b"\n");
}
