// The table of the console's operations, and the numbers behind a name.
#![tactic(auto)]

ghost use Rattle.std.specs.Prelude.{◌≡◌, get_or, drop};
ghost use Rattle.console_words.specs.Parted.{words};
ghost use Rattle.console_names.specs.Names.{place_among};
ghost use Rattle.console_names.specs.Table.{names, row_at, takes};
ghost use Rattle.console_names.specs.Behind.{Numbered};

use self::Count::{AtLeast, Exactly};
use self::Kind::Registry;
use self::Values::{Numbers, NumbersOrNone, YesOrNo};

// How many numbers stand behind a name: so many, or so many and then as many as wished.
#[derive(Clone, Copy)]
pub enum Count {
    Exactly(usize),
    AtLeast(usize),
}

// The values behind `ok`: nothing, numbers, numbers or `none`, `yes` or `no`.
#[derive(Clone, Copy)]
pub enum Values {
    None,
    Numbers,
    NumbersOrNone,
    YesOrNo,
}

// A list that a plugin holds.
#[derive(Clone, Copy)]
pub enum Held {
    Deps,
    Provs,
    Realms,
}

// What the registry is asked for.
#[derive(Clone, Copy)]
pub enum Request {
    Open,
    Begin,
    Ready,
    Fail,
    Unload,
    Finish,
    Replace,
    Fits,
    Admit,
    Call,
    Retire,
    RetireChild,
    Remove,
    Child,
    Offer,
    Read,
    Visible,
    Missing,
    Matches,
    Declares,
    Lookup,
    Resolve,
    Rows,
    Count,
    Next,
    Edition,
}

// What is done with the numbers: a plugin or the buffer is shown, a list goes to the buffer, the registry is asked, its text is
// written, a text is awaited that it is loaded from, or a start order is planned.
#[derive(Clone, Copy)]
pub enum Kind {
    Show,
    Buffer,
    Lists(Held),
    Registry(Request, Values),
    Text,
    Load,
    Plan,
}

// What stands behind an operation's name: words of its own, or numbers.
#[derive(Clone, Copy)]
pub enum Row {
    Slot,
    Register,
    Check,
    Takes(Count, Kind),
    Unknown,
}

// How many operations there are.
const OPERATIONS: usize = 37;

// A row for each operation. A new one goes to the end, and its name to the end of the names below.
const TABLE: [Row; OPERATIONS] = [
    Row::Takes(Exactly(2), Registry(Request::Open, Values::None)),
    Row::Register,
    Row::Takes(Exactly(1), Registry(Request::Begin, Numbers)),
    Row::Takes(Exactly(1), Registry(Request::Ready, Values::None)),
    Row::Takes(Exactly(1), Registry(Request::Fail, Values::None)),
    Row::Takes(Exactly(1), Registry(Request::Unload, Values::None)),
    Row::Takes(Exactly(1), Registry(Request::Finish, Values::None)),
    Row::Takes(Exactly(2), Registry(Request::Replace, Numbers)),
    Row::Takes(Exactly(2), Registry(Request::Fits, YesOrNo)),
    Row::Takes(Exactly(5), Registry(Request::Admit, Numbers)),
    Row::Takes(Exactly(5), Registry(Request::Call, Numbers)),
    Row::Takes(Exactly(1), Registry(Request::Retire, Values::None)),
    Row::Takes(Exactly(3), Registry(Request::RetireChild, Values::None)),
    Row::Takes(Exactly(1), Registry(Request::Remove, Values::None)),
    Row::Takes(Exactly(1), Registry(Request::Child, NumbersOrNone)),
    Row::Takes(Exactly(4), Registry(Request::Offer, Values::None)),
    Row::Takes(Exactly(3), Registry(Request::Read, Numbers)),
    Row::Takes(Exactly(2), Registry(Request::Visible, NumbersOrNone)),
    Row::Takes(Exactly(1), Registry(Request::Missing, NumbersOrNone)),
    Row::Takes(AtLeast(1), Registry(Request::Matches, YesOrNo)),
    Row::Takes(Exactly(3), Registry(Request::Declares, YesOrNo)),
    Row::Takes(Exactly(2), Registry(Request::Lookup, NumbersOrNone)),
    Row::Takes(AtLeast(3), Registry(Request::Resolve, Numbers)),
    Row::Takes(Exactly(2), Kind::Lists(Held::Deps)),
    Row::Takes(Exactly(2), Kind::Lists(Held::Provs)),
    Row::Takes(Exactly(2), Kind::Lists(Held::Realms)),
    Row::Takes(Exactly(2), Kind::Buffer),
    Row::Takes(Exactly(0), Registry(Request::Rows, Numbers)),
    Row::Takes(Exactly(0), Registry(Request::Count, Numbers)),
    Row::Takes(Exactly(0), Registry(Request::Next, Numbers)),
    Row::Takes(Exactly(1), Kind::Show),
    Row::Slot,
    Row::Takes(Exactly(1), Kind::Text),
    Row::Takes(Exactly(2), Kind::Load),
    Row::Takes(Exactly(1), Registry(Request::Edition, Numbers)),
    Row::Takes(AtLeast(1), Kind::Plan),
    Row::Check,
];

// The status of a line that is no operation; no refusal has this number.
pub const BAD: u64 = u64::MAX;

// How many numbers the console's buffer has.
pub const BUFFER_ROOM: usize = 100;

// Which of these names, parted by spaces, a word is: 0 for the first, and their count where it is none of them.
pub fn which(word: &[u8], names: &[u8]) -> usize
    ensures { result ≡ place_among word.now (words names.now) }
{
    let mut at: usize = 0;
    let mut i: usize = 0;
    while at < names.len() {
        let next = console_words::next_word(names, at);
        if next.start == next.stop {
            return i;
        }
        if console_words::is_word(word, &names[next.start..next.stop]) {
            return i;
        }
        at = next.stop;
        i += 1;
    }
    i
}

// The place of an operation among all of them, and their count where the word is none.
pub fn operation(name: &[u8]) -> usize
    ensures { result ≡ place_among name.now names }
{
    which(
        name,
        b"open register begin ready fail unload finish replace fits admit call retire retire_child remove child offer read visible \
          missing matches declares lookup resolve deps provs realms buffer rows count next show slot write load edition \
          plan check",
    )
}

// An operation's row; a place that none has is unknown.
pub fn row_at(place: usize) -> Row
    ensures { result ≡ row_at place }
{
    if place < OPERATIONS {
        return TABLE[place];
    }
    Row::Unknown
}

// Whether so many numbers are what is due.
pub fn takes(count: Count, given: usize) -> bool
    ensures { result ≡ takes count given }
{
    match count {
        Count::Exactly(due) => given == due,
        Count::AtLeast(due) => due <= given,
    }
}

// The number at a place, 0 behind the last.
pub fn nth(l: &[u64], place: usize) -> u64
    ensures { result ≡ get_or l.now place 0 }
{
    l.get(place).copied().unwrap_or(0)
}

// The numbers behind the first.
pub fn rest(l: &[u64]) -> &[u64]
    ensures { result.now ≡ drop 1 l.now }
{
    if l.is_empty() {
        return l;
    }
    &l[1..]
}

// Numbers from a place on go to the front of n, whose rest stays: how many, also where another word stands behind them.
pub fn numbers(bytes: &[u8], from: usize, n: &mut [u64; 2048]) -> Result<usize, usize>
    ensures { Numbered bytes.now from n.old n.new result }
{
    let run = console_words::numbers(bytes, from, n);
    if run.stop < bytes.len() {
        return Err(run.count);
    }
    Ok(run.count)
}
