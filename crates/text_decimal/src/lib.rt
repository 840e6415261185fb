// Numbers as the console and the text write and read them: decimal, without leading zeros, at most 2^64 − 1.
#![tactic(auto)]

ghost use Rattle.std.specs.Prelude.{◌≡◌, ◌≤◌, length};
ghost use Rattle.text_form.specs.Digits.{decimal_of, over, shown, Written};
ghost use Rattle.text_form.specs.Words.{value_from, number_of};

// How many digits a number has: four for each time that it is divided by 10,000, and those of what is left.
pub fn digit_count(n: u64) -> usize
    ensures { result ≡ length (decimal_of n) }
{
    let mut left = n;
    let mut count: usize = 0;
    while 10000 <= left {
        left /= 10000;
        count += 4;
    }
    if left < 10 {
        return count + 1;
    }
    if left < 100 {
        return count + 2;
    }
    if left < 1000 {
        return count + 3;
    }
    count + 4
}

// The digits of the number, so many, at the front of the scratch, from the last to the first, two for each division.
fn fill(n: u64, count: usize, scratch: &mut [u8])
    requires digits { count ≡ length (decimal_of n) }
    requires room { count ≤ length scratch.old }
    ensures { scratch.new ≡ over (decimal_of n) scratch.old }
{
    let mut left = n;
    let mut i = count - 1;
    while 100 <= left {
        let two = left % 100;
        left /= 100;
        scratch[i] = (48 + two % 10) as u8;
        scratch[i - 1] = (48 + two / 10) as u8;
        i -= 2;
    }
    if left < 10 {
        scratch[0] = (48 + left) as u8;
        return;
    }
    scratch[1] = (48 + left % 10) as u8;
    scratch[0] = (48 + left / 10) as u8;
}

// The number stands in decimal at the front of the scratch, whose rest stays. The result is how many bytes it takes. A scratch that
// is shorter than 20 bytes stays as it is, and the result is 0.
pub fn write_digits(n: u64, scratch: &mut [u8]) -> usize
    ensures { Written n result scratch.old scratch.new }
{
    if scratch.len() < 20 {
        return 0;
    }
    if n < 10 {
        scratch[0] = (48 + n) as u8;
        return 1;
    }
    let count = digit_count(n);
    fill(n, count, scratch);
    count
}

// The part of the scratch that holds the number in decimal: empty where the scratch is shorter than 20 bytes.
pub fn write_decimal<'a>(n: u64, scratch: &'a mut [u8]) -> &'a mut [u8]
    ensures { result.now ≡ shown n scratch.old }
{
    let count = write_digits(n, scratch);
    &mut scratch[..count]
}

// The number that these bytes are, each a digit; leading zeros count for nothing.
fn read_digits(word: &[u8]) -> Option<u64>
    ensures { result ≡ value_from 0 word.now }
{
    let mut n: u64 = 0;
    for byte in word {
        if !byte.is_ascii_digit() {
            return None;
        }
        let digit = (*byte - b'0') as u64;
        if (u64::MAX - digit) / 10 < n {
            return None;
        }
        n = n * 10 + digit;
    }
    Some(n)
}

pub fn read_decimal(word: &[u8]) -> Option<u64>
    ensures { result ≡ number_of word.now }
{
    if word.len() == 0 {
        return None;
    }
    if word.len() == 1 {
        return read_digits(word);
    }
    let leading_zero = word[0] == 48;
    if leading_zero {
        return None;
    }
    read_digits(word)
}
