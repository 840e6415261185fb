// The lines of the registry's text. Bytes go to a place of a lent text, and the place behind them comes back. Those past the text's
// end go nowhere and count all the same, so that every function takes any text and any place.
#![tactic(auto)]

ghost use Rattle.std.specs.Prelude.{◌≡◌, [], ◌∷◌, ◌++◌, ◌+◌, ◌≤◌, min, length};
ghost use Rattle.rules.specs.Basics.{last};
ghost use Rattle.rules.specs.Ports.{pairs};
ghost use Rattle.rules.specs.Text.Values.{edition_and_default};
ghost use Rattle.text_lines.specs.Laid.{laid, Laid};
ghost use Rattle.text_lines.specs.Lines.{ended, or_none, pair, triple, root_lines, port_lines};

use rules::{Edition, Root};

// The place so many bytes behind another, at most 2^64 − 1: no text reaches there.
fn behind(at: usize, count: usize) -> usize
    ensures { result ≡ min (at + count) last }
{
    at.saturating_add(count)
}

// One byte, if it has a place.
fn put_byte(text: &mut [u8], at: usize, byte: u8) -> usize
    ensures { Laid (byte ∷ []) at text.old text.new result }
{
    if at < text.len() {
        text[at] = byte;
        return at + 1;
    }
    behind(at, 1)
}

// All of the bytes, where each has a place. Their count is known where a name is put, so that the compiler stores it whole. A loop, for
// `copy_from_slice` would make the archive need `memmove`.
fn put_whole(text: &mut [u8], at: usize, bytes: &[u8])
    requires { at + length bytes.now ≤ length text.old }
    ensures { text.new ≡ laid text.old at bytes.now }
{
    for i in 0..bytes.len() {
        text[at + i] = bytes[i];
    }
}

// Each of the bytes that has a place.
fn put_each(text: &mut [u8], at: usize, bytes: &[u8]) -> usize
    ensures { Laid bytes.now at text.old text.new result }
{
    let mut place = at;
    for byte in bytes {
        place = put_byte(text, place, *byte);
    }
    place
}

pub fn put(text: &mut [u8], at: usize, bytes: &[u8]) -> usize
    ensures { Laid bytes.now at text.old text.new result }
{
    let end = behind(at, bytes.len());
    if end < text.len() {
        put_whole(text, at, bytes);
        return end;
    }
    if text.len() <= at {
        return end;
    }
    put_each(text, at, bytes)
}

// A number, and the byte that ends it. Past the text's end its digits are counted and not made. A few are moved one by one, in
// less time than at once.
pub fn number(text: &mut [u8], at: usize, n: u64, end: u8) -> usize
    ensures { Laid (ended n end) at text.old text.new result }
{
    if text.len() <= at {
        return behind(at, text_decimal::digit_count(n) + 1);
    }
    let mut scratch = [0u8; 20];
    let digits = text_decimal::write_decimal(n, &mut scratch);
    if digits.len() == 1 {
        let place = put_byte(text, at, digits[0]);
        return put_byte(text, place, end);
    }
    if digits.len() < 5 {
        let place = put_each(text, at, digits);
        return put_byte(text, place, end);
    }
    let place = put(text, at, digits);
    put_byte(text, place, end)
}

// A number or `none`, and the line's end.
fn number_or_none(text: &mut [u8], at: usize, value: Option<u64>) -> usize
    ensures { Laid (or_none value) at text.old text.new result }
{
    match value {
        Some(n) => number(text, at, n, b'\n'),
        None => put(text, at, b"none\n"),
    }
}

// Two numbers parted by a comma, and the line's end.
fn number_pair(text: &mut [u8], at: usize, a: u64, b: u64) -> usize
    ensures { Laid (pair a b) at text.old text.new result }
{
    let second = number(text, at, a, b',');
    number(text, second, b, b'\n')
}

// A line: a name with its equals sign, and behind it a number, a number or none, a pair, a pair with a number or none.
pub fn number_line(text: &mut [u8], at: usize, name: &[u8], n: u64) -> usize
    ensures { Laid (name.now ++ ended n 10) at text.old text.new result }
{
    let value = put(text, at, name);
    number(text, value, n, b'\n')
}

pub fn optional_line(text: &mut [u8], at: usize, name: &[u8], value: Option<u64>) -> usize
    ensures { Laid (name.now ++ or_none value) at text.old text.new result }
{
    let place = put(text, at, name);
    number_or_none(text, place, value)
}

pub fn pair_line(text: &mut [u8], at: usize, name: &[u8], a: u64, b: u64) -> usize
    ensures { Laid (name.now ++ pair a b) at text.old text.new result }
{
    let first = put(text, at, name);
    number_pair(text, first, a, b)
}

pub fn triple_line(
    text: &mut [u8],
    at: usize,
    name: &[u8],
    a: u64,
    b: u64,
    value: Option<u64>,
) -> usize
    ensures { Laid (name.now ++ triple a b value) at text.old text.new result }
{
    let first = put(text, at, name);
    let second = number(text, first, a, b',');
    let third = number(text, second, b, b',');
    number_or_none(text, third, value)
}

// The lines root and queued.
pub fn root_lines(text: &mut [u8], at: usize, root: Root) -> usize
    ensures { Laid (root_lines root) at text.old text.new result }
{
    match root {
        Root::Unissued => put(text, at, b"root=0\nqueued=none\n"),
        Root::Queued(revision, argument) => pair_line(
            text,
            at,
            b"root=1\nqueued=",
            revision,
            argument,
        ),
        Root::Spent => put(text, at, b"root=2\nqueued=none\n"),
    }
}

// The lines edition and default.
pub fn edition_lines(text: &mut [u8], at: usize, edition: Edition) -> usize
    ensures { Laid (edition_and_default.write edition) at text.old text.new result }
{
    match edition {
        Edition::First => put(text, at, b"edition=1\ndefault=0\n"),
        Edition::Second(default) => number_line(text, at, b"edition=2\ndefault=", default),
    }
}

// A line for each port of a list that is lent as key, realm, key, realm.
pub fn port_lines(text: &mut [u8], at: usize, name: &[u8], ports: &[u64]) -> usize
    ensures { Laid (port_lines name.now (pairs ports.now)) at text.old text.new result }
{
    let mut place = at;
    for port in ports.chunks_exact(2) {
        place = pair_line(text, place, name, port[0], port[1]);
    }
    place
}
