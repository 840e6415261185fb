// A word with a bit for each number's remainder by 64: what lacks its bit is not there, and need not be looked for.
#![tactic(auto)]

ghost use Rattle.std.specs.Prelude.{◌≡◌};
ghost use Rattle.rules.specs.Ports.{pairs};
ghost use Rattle.ports_bits.specs.Bits.{with_bit, has_bit};
ghost use Rattle.ports_bits.specs.Keys.{key_word};

// The word with the bit of a number's remainder by 64.
pub fn with_bit(word: u64, n: u64) -> u64
    ensures { result ≡ with_bit word n }
{
    word | 1 << (n % 64)
}

// Whether the word has that bit.
pub fn has_bit(word: u64, n: u64) -> bool
    ensures { result ≡ has_bit word n }
{
    (word >> (n % 64)) % 2 == 1
}

// The word with the bits of the ports' keys.
pub fn key_word(word: u64, ports: &[u64]) -> u64
    ensures { result ≡ key_word word (pairs ports.now) }
{
    let mut bits = word;
    for row in (0..ports.len() / 2).rev() {
        bits = with_bit(bits, ports[row * 2]);
    }
    bits
}
