// Names and numbers of a text: what stands at a place of it, with the place behind. Where none goes in, as what was to be read before
// it does not stand there, none comes out.
#![tactic(auto)]

ghost use Rattle.std.specs.Prelude.{◌≡◌, true, ◌≤◌, ◌<◌, ◌+◌, ◌*◌, ◌^◌, leb, length};
ghost use Rattle.text_form.specs.Forms.{expect};
ghost use Rattle.text_form.specs.Words.{no_digit};
ghost use Rattle.text_form.specs.Numbers.{read_number};
ghost use Rattle.text_form.specs.Lines.{number, comma};
ghost use Rattle.text_read_number.specs.Reads.{Reads, ReadsFrom, StandsFrom};
ghost use Rattle.text_read_number.specs.Numbers.{stop_at, value_to};

// (2^64 − 1) / 10
const LAST_TENTH: u64 = 1844674407370955161;

// These bytes stand at the place. Where fewer are left, none is looked at.
pub fn literal(text: &[u8], at: Option<usize>, name: &[u8]) -> Option<usize>
    ensures { StandsFrom (expect name.now) text.now at result }
{
    let at = at?;
    let rest = text.get(at..)?;
    if rest.starts_with(name) {
        return Some(at + name.len());
    }
    None
}

// The byte that ends a number.
fn ended(text: &[u8], at: usize, stop: u8, value: u64) -> Option<(u64, usize)>
    requires { at ≤ length text.now }
    ensures { Reads (stop_at stop value) text.now at result }
{
    let byte = *text.get(at)?;
    let here = byte == stop;
    if here {
        return Some((value, at + 1));
    }
    None
}

// Whether a digit more makes a number past 2^64 − 1: behind a tenth of that none fits from 6 on.
fn is_past(n: u64, digit: u64) -> bool
    requires { digit < 10 }
    ensures { result ≡ leb (2 ^ 64) (n * 10 + digit) }
{
    if n < LAST_TENTH {
        return false;
    }
    LAST_TENTH - digit / 6 < n
}

// The digits behind a number, up to the byte that ends it: one pass.
fn digits(text: &[u8], from: usize, stop: u8, value: u64) -> Option<(u64, usize)>
    requires inside { from ≤ length text.now }
    requires stops { no_digit stop ≡ true }
    ensures { Reads (value_to stop value) text.now from result }
{
    let mut n = value;
    for i in from..text.len() {
        let byte = text[i];
        if !byte.is_ascii_digit() {
            return ended(text, i, stop, n);
        }
        let digit = (byte - b'0') as u64;
        if is_past(n, digit) {
            return None;
        }
        n = n * 10 + digit;
    }
    None
}

// The digit behind which a number ends that begins with it.
const ZERO: u8 = b'0';

// A number with this byte behind it: no leading zero, and no number past 2^64 − 1.
fn number_to(text: &[u8], at: usize, stop: u8) -> Option<(u64, usize)>
    requires { no_digit stop ≡ true }
    ensures { Reads (read_number stop) text.now at result }
{
    let byte = *text.get(at)?;
    if !byte.is_ascii_digit() {
        return None;
    }
    if byte == ZERO {
        return ended(text, at + 1, stop, 0);
    }
    digits(text, at + 1, stop, (byte - b'0') as u64)
}

// A number that ends its line.
pub fn to_end(text: &[u8], at: Option<usize>) -> Option<(u64, usize)>
    ensures { ReadsFrom number.read text.now at result }
{
    number_to(text, at?, b'\n')
}

// A number with a comma behind it.
pub fn to_comma(text: &[u8], at: Option<usize>) -> Option<(u64, usize)>
    ensures { ReadsFrom comma.read text.now at result }
{
    number_to(text, at?, b',')
}
