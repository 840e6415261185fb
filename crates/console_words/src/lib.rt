// The words of a line, parted by one or more spaces. No other byte parts words. Every function takes any bytes and any place.
#![tactic(auto)]

ghost use Rattle.std.specs.Prelude.{◌≡◌, ◌≤◌, ◌+◌, length, drop};
ghost use Rattle.rules.specs.Basics.{same_numbers};
ghost use Rattle.console_words.specs.Words.{spaces, word_length, Spanned};
ghost use Rattle.console_words.specs.Runs.{Gathered};
ghost use Rattle.console_words.specs.Bytes.{longer_bytes, longer_count};

// The most bytes of a line, its byte 10 not counted.
pub const LINE: usize = 4096;

// A word stands from start up to but without stop.
#[derive(Clone, Copy)]
pub struct Span {
    pub start: usize,
    pub stop: usize,
}

// How many numbers were read, and the place of the first word that is no number.
#[derive(Clone, Copy)]
pub struct Run {
    pub count: usize,
    pub stop: usize,
}

// One more byte of a line of which so many came. Of a line that is too long, only that is kept.
pub fn longer(line: &mut [u8; LINE], filled: usize, byte: u8) -> usize
    ensures count { result ≡ longer_count filled }
    ensures bytes { line.new ≡ longer_bytes line.old filled byte }
{
    let fits = filled < LINE;
    if fits {
        line[filled] = byte;
        return filled + 1;
    }
    LINE + 1
}

fn past_spaces(line: &[u8], from: usize) -> usize
    requires { from ≤ length line.now }
    ensures { (result ≡ from + spaces (drop from line.now)) × (result ≤ length line.now) }
{
    for i in from..line.len() {
        if line[i] != b' ' {
            return i;
        }
    }
    line.len()
}

fn past_word(line: &[u8], from: usize) -> usize
    requires { from ≤ length line.now }
    ensures { (result ≡ from + word_length (drop from line.now)) × (result ≤ length line.now) }
{
    for i in from..line.len() {
        let space = line[i] == b' ';
        if space {
            return i;
        }
    }
    line.len()
}

// The first word at or after a place; without one, both ends are the line's.
pub fn next_word(line: &[u8], from: usize) -> Span
    ensures { Spanned line.now from result }
{
    let end = line.len();
    if end < from {
        return Span {
            start: end,
            stop: end,
        };
    }
    let start = past_spaces(line, from);
    let stop = past_word(line, start);
    Span { start, stop }
}

// Whether a word is this name.
pub fn is_word(word: &[u8], name: &[u8]) -> bool
    ensures { result ≡ same_numbers word.now name.now }
{
    word == name
}

// Numbers from a place on, up to the first word that is none, go to the front of out, whose rest stays.
pub fn numbers(line: &[u8], from: usize, out: &mut [u64; 2048]) -> Run
    ensures { Gathered line.now from out.old out.new result }
{
    let mut at = from;
    for count in 0..2048 {
        let word = next_word(line, at);
        let Some(n) = text_decimal::read_decimal(&line[word.start..word.stop]) else {
            return Run {
                count,
                stop: word.start,
            };
        };
        out[count] = n;
        at = word.stop;
    }
    Run {
        count: 2048,
        stop: at,
    }
}
