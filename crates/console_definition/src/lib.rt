// The line of a registration: parent, anchor, payload, the realm list's edition and default, and three lists, each behind its word.
#![tactic(auto)]

ghost use Rattle.std.specs.Prelude.{◌≡◌, length};
ghost use Rattle.console_definition.specs.Definitions.{under_in, number_in, five_numbers, head_in, list_behind};
ghost use Rattle.console_definition.specs.Found.{Behind, Three};

use console_words::Run;

// A parent's id, if there is one, and the place behind its word.
#[derive(Clone, Copy)]
pub struct Under {
    pub parent: Option<u64>,
    pub stop: usize,
}

// The next word as a number, if it is one, and the place behind it.
#[derive(Clone, Copy)]
struct Number {
    value: Option<u64>,
    stop: usize,
}

// Anchor, payload, and the realm list's edition and default, and the place behind the five words. A word that is no number is 0.
#[derive(Clone, Copy)]
pub struct Head {
    pub key: u64,
    pub realm: u64,
    pub payload: u64,
    pub edition: u64,
    pub default: u64,
    pub stop: usize,
}

// How many numbers the three lists have.
#[derive(Clone, Copy)]
pub struct Lists {
    pub realms: usize,
    pub deps: usize,
    pub provs: usize,
}

// The next word as a parent: an id or `none`; of another word, the place behind it.
pub fn read_parent(bytes: &[u8], from: usize) -> Result<Under, usize>
    ensures { result ≡ under_in bytes.now from }
{
    let word = console_words::next_word(bytes, from);
    let name = &bytes[word.start..word.stop];
    if console_words::is_word(name, b"none") {
        return Ok(Under {
            parent: None,
            stop: word.stop,
        });
    }
    let Some(id) = text_decimal::read_decimal(name) else {
        return Err(word.stop);
    };
    Ok(Under {
        parent: Some(id),
        stop: word.stop,
    })
}

fn read_number(bytes: &[u8], from: usize) -> Number
    ensures { result ≡ number_in bytes.now from }
{
    let word = console_words::next_word(bytes, from);
    Number {
        value: text_decimal::read_decimal(&bytes[word.start..word.stop]),
        stop: word.stop,
    }
}

fn five_numbers(
    key: Number,
    realm: Number,
    payload: Number,
    edition: Number,
    default: Number,
) -> bool
    ensures { result ≡ five_numbers key realm payload edition default }
{
    key.value.is_some()
        && realm.value.is_some()
        && payload.value.is_some()
        && edition.value.is_some()
        && default.value.is_some()
}

// Anchor, payload, edition and default: the next five words as numbers. Where one is none, all five are told as they were read.
pub fn read_head(bytes: &[u8], from: usize) -> Result<Head, Head>
    ensures { result ≡ head_in bytes.now from }
{
    let key = read_number(bytes, from);
    let realm = read_number(bytes, key.stop);
    let payload = read_number(bytes, realm.stop);
    let edition = read_number(bytes, payload.stop);
    let default = read_number(bytes, edition.stop);
    let head = Head {
        key: key.value.unwrap_or(0),
        realm: realm.value.unwrap_or(0),
        payload: payload.value.unwrap_or(0),
        edition: edition.value.unwrap_or(0),
        default: default.value.unwrap_or(0),
        stop: default.stop,
    };
    if !five_numbers(key, realm, payload, edition, default) {
        return Err(head);
    }
    Ok(head)
}

// The next word has to be this name; the numbers behind it go to the front of the array, whose rest stays. Of another word
// there are none, up to the line's end.
pub fn list_behind(
    bytes: &[u8],
    from: usize,
    name: &[u8],
    numbers: &mut [u64; 2048],
) -> Result<Run, Run>
    ensures { Behind (length bytes.now) (list_behind bytes.now from name.now) numbers.old numbers.new result }
{
    let word = console_words::next_word(bytes, from);
    if !console_words::is_word(&bytes[word.start..word.stop], name) {
        return Err(Run {
            count: 0,
            stop: bytes.len(),
        });
    }
    Ok(console_words::numbers(bytes, word.stop, numbers))
}

// The three lists, one behind the other, each at the front of its array, whose rest stays. Nothing stands behind them; else
// how many numbers each has is told all the same, 0 from a list on that is missing.
pub fn three_lists(
    bytes: &[u8],
    from: usize,
    realms: &mut [u64; 2048],
    deps: &mut [u64; 2048],
    provs: &mut [u64; 2048],
) -> Result<Lists, Lists>
    ensures { Three bytes.now from realms.old realms.new deps.old deps.new provs.old provs.new result }
{
    let mut all = Lists {
        realms: 0,
        deps: 0,
        provs: 0,
    };
    let Ok(first) = list_behind(bytes, from, b"realms", realms) else {
        return Err(all);
    };
    all.realms = first.count;
    let Ok(second) = list_behind(bytes, first.stop, b"deps", deps) else {
        return Err(all);
    };
    all.deps = second.count;
    let Ok(third) = list_behind(bytes, second.stop, b"provs", provs) else {
        return Err(all);
    };
    all.provs = third.count;
    let ends = third.stop == bytes.len();
    if !ends {
        return Err(all);
    }
    Ok(all)
}
