// How many bytes a plugin's block takes in the registry's text, told without writing it. Every function takes any words; a place is read
// modulo 32. Lines are measured as they are written, with their values left out, and the values' digits are added.
#![tactic(auto)]

ghost use Rattle.std.specs.Prelude.{◌≡◌, ◌%◌, ◌≤◌, length};
ghost use Rattle.rules.specs.Ports.{pairs};
ghost use Rattle.rules.specs.Text.Values.{edition_and_default};
ghost use Rattle.memory.specs.Layout.{places};
ghost use Rattle.memory.specs.View.{plugin_at};
ghost use Rattle.memory_values.specs.Values.{value_below};
ghost use Rattle.text_form.specs.Digits.{decimal_of};
ghost use Rattle.text_laws.specs.Parts.{block_of};
ghost use Rattle.text_lines.specs.Lines.{or_none, root_lines};
ghost use Rattle.text_block.specs.Parts.{name_lines, life_lines, ports_lines, list_lines, provision_line, provisions_lines};

use memory::{Life, WORDS};
use rules::{Edition, Root};

// A number's digits. What a part takes at most is said beside its length, so that no sum of parts overflows.
fn digits(n: u64) -> usize
    ensures { (result ≡ length (decimal_of n)) × (result ≤ 20) }
{
    text_decimal::digit_count(n)
}

// A number or `none`, and the line's end.
fn number_or_none(value: Option<u64>) -> usize
    ensures { (result ≡ length (or_none value)) × (result ≤ 21) }
{
    match value {
        Some(n) => b"\n".len() + digits(n),
        None => b"none\n".len(),
    }
}

// id and parent
fn name_lines(m: &[u64; WORDS], place: usize) -> usize
    ensures { (result ≡ length (name_lines (plugin_at m.now (place % places)))) × (result ≤ 52) }
{
    b"id=\nparent=".len()
        + digits(memory::id(m, place))
        + number_or_none(memory::parent_of(m, place))
}

// root and queued
fn root_lines(root: Root) -> usize
    ensures { (result ≡ length (root_lines root)) × (result ≤ 56) }
{
    match root {
        Root::Unissued => b"root=0\nqueued=none\n".len(),
        Root::Queued(revision, argument) => b"root=1\nqueued=,\n".len()
            + digits(revision)
            + digits(argument),
        Root::Spent => b"root=2\nqueued=none\n".len(),
    }
}

// phase, retired, generation, revision, payload, root and queued; any phase is one digit, and so is either mark
fn life_lines(life: Life) -> usize
    ensures { (result ≡ length (life_lines life)) × (result ≤ 165) }
{
    b"phase=0\nretired=0\ngeneration=\nrevision=\npayload=\n".len()
        + digits(life.generation.0)
        + digits(life.revision)
        + digits(life.payload)
        + root_lines(life.root)
}

// edition and default
fn edition_lines(edition: Edition) -> usize
    ensures { (result ≡ length (edition_and_default.write edition)) × (result ≤ 39) }
{
    match edition {
        Edition::First => b"edition=1\ndefault=0\n".len(),
        Edition::Second(default) => b"edition=2\ndefault=\n".len() + digits(default),
    }
}

// A count, and a line for each port of a list that is lent as key, realm, key, realm.
fn ports_lines(plural: &[u8], name: &[u8], ports: &[u64]) -> usize
    requires { (length plural.now ≤ 7) × (length name.now ≤ 6) × (length (pairs ports.now) ≤ 48) }
    ensures { (result ≡ length (ports_lines plural.now name.now (pairs ports.now))) × (result ≤ 2356) }
{
    let line = name.len() + b",\n".len();
    let mut total = plural.len() + b"\n".len() + digits((ports.len() / 2) as u64);
    for port in ports.chunks_exact(2) {
        total += line + digits(port[0]) + digits(port[1]);
    }
    total
}

// anchor, edition, default, realms, deps
fn list_lines(m: &[u64; WORDS], place: usize) -> usize
    ensures { (result ≡ length (list_lines (plugin_at m.now (place % places)))) × (result ≤ 4800) }
{
    let anchor = memory_lists::anchor(m, place);
    let realms = memory_lists::realm_words(m, place);
    b"anchor=,\n".len()
        + digits(anchor.key)
        + digits(anchor.realm)
        + edition_lines(ports_realms::edition(realms))
        + ports_lines(b"realms=", b"realm=", ports_realms::rows(realms))
        + ports_lines(b"deps=", b"dep=", memory_lists::dependency_words(m, place))
}

// key,realm,value or none
fn provision_line(m: &[u64; WORDS], place: usize, provision: usize, key: u64, realm: u64) -> usize
    ensures { (result ≡ length (provision_line key realm (value_below m.now (place % places) provision))) × (result ≤ 68) }
{
    b"prov=,,".len()
        + digits(key)
        + digits(realm)
        + number_or_none(memory_values::value_at(m, place, provision))
}

// provs, and a line for each
fn provision_lines(m: &[u64; WORDS], place: usize) -> usize
    ensures { (result ≡ length (provisions_lines (plugin_at m.now (place % places)).provisions)) × (result ≤ 1047) }
{
    let words = memory_lists::provision_words(m, place);
    let rows = words.len() / 2;
    let mut total = b"provs=\n".len() + digits(rows as u64);
    for j in 0..rows {
        total += provision_line(m, place, j, words[j * 2], words[j * 2 + 1]);
    }
    total
}

// The whole block.
pub fn block(m: &[u64; WORDS], place: usize) -> usize
    ensures { result ≡ length (block_of (plugin_at m.now (place % places))) }
{
    name_lines(m, place)
        + life_lines(memory_life::load(m, place))
        + list_lines(m, place)
        + provision_lines(m, place)
}
