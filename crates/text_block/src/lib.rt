// A plugin's block in the registry's text: the lines that say it, from its words. Every function takes any words; a place is read
// modulo 32. Bytes past the text's end go nowhere and count all the same.
#![tactic(auto)]

ghost use Rattle.std.specs.Prelude.{◌≡◌, ◌%◌};
ghost use Rattle.memory.specs.Layout.{places};
ghost use Rattle.rules.specs.Ports.{pairs, realm_list};
ghost use Rattle.memory.specs.View.{plugin_at};
ghost use Rattle.memory_values.specs.Values.{value_below};
ghost use Rattle.text_laws.specs.Parts.{block_of};
ghost use Rattle.text_lines.specs.Laid.{Laid};
ghost use Rattle.text_block.specs.Parts.{name_lines, phase_line, retired_line, life_lines, ports_lines, realm_lines, list_lines, provision_line};
ghost use Rattle.text_block.specs.Parts.{provisions_lines};

use memory::{Life, WORDS};
use rules::Phase;

// id and parent
fn name_lines(m: &[u64; WORDS], place: usize, text: &mut [u8], at: usize) -> usize
    ensures { Laid (name_lines (plugin_at m.now (place % places))) at text.old text.new result }
{
    let behind = text_lines::number_line(text, at, b"id=", memory::id(m, place));
    text_lines::optional_line(text, behind, b"parent=", memory::parent_of(m, place))
}

// 0 to 3 in table order
fn phase_line(text: &mut [u8], at: usize, phase: Phase) -> usize
    ensures { Laid (phase_line phase) at text.old text.new result }
{
    match phase {
        Phase::Idle => text_lines::put(text, at, b"phase=0\n"),
        Phase::Loading => text_lines::put(text, at, b"phase=1\n"),
        Phase::Active => text_lines::put(text, at, b"phase=2\n"),
        Phase::Unloading => text_lines::put(text, at, b"phase=3\n"),
    }
}

// 0 or 1
fn retired_line(text: &mut [u8], at: usize, retired: bool) -> usize
    ensures { Laid (retired_line retired) at text.old text.new result }
{
    if retired {
        text_lines::put(text, at, b"retired=1\n")
    } else {
        text_lines::put(text, at, b"retired=0\n")
    }
}

// phase, retired, generation, revision, payload, root and queued
fn life_lines(text: &mut [u8], at: usize, life: Life) -> usize
    ensures { Laid (life_lines life) at text.old text.new result }
{
    let retired = phase_line(text, at, life.phase);
    let generation = retired_line(text, retired, life.retired);
    let revision = text_lines::number_line(text, generation, b"generation=", life.generation.0);
    let payload = text_lines::number_line(text, revision, b"revision=", life.revision);
    let queue = text_lines::number_line(text, payload, b"payload=", life.payload);
    text_lines::root_lines(text, queue, life.root)
}

// A count, and a line for each port.
fn ports_lines(text: &mut [u8], at: usize, plural: &[u8], name: &[u8], ports: &[u64]) -> usize
    ensures { Laid (ports_lines plural.now name.now (pairs ports.now)) at
        text.old text.new result }
{
    let behind = text_lines::number_line(text, at, plural, (ports.len() / 2) as u64);
    text_lines::port_lines(text, behind, name, ports)
}

// edition, default and realms, off a list that edition and default lead
fn realm_lines(text: &mut [u8], at: usize, list: &[u64]) -> usize
    ensures { Laid (realm_lines (realm_list list.now)) at text.old text.new result }
{
    let behind = text_lines::edition_lines(text, at, ports_realms::edition(list));
    ports_lines(
        text,
        behind,
        b"realms=",
        b"realm=",
        ports_realms::rows(list),
    )
}

// anchor, edition, default, realms, deps
fn list_lines(m: &[u64; WORDS], place: usize, text: &mut [u8], at: usize) -> usize
    ensures { Laid (list_lines (plugin_at m.now (place % places))) at text.old text.new result }
{
    let anchor = memory_lists::anchor(m, place);
    let realms = text_lines::pair_line(text, at, b"anchor=", anchor.key, anchor.realm);
    let deps = realm_lines(text, realms, memory_lists::realm_words(m, place));
    ports_lines(
        text,
        deps,
        b"deps=",
        b"dep=",
        memory_lists::dependency_words(m, place),
    )
}

// key,realm,value or none
fn provision_line(
    m: &[u64; WORDS],
    place: usize,
    text: &mut [u8],
    at: usize,
    provision: usize,
    key: u64,
    realm: u64,
) -> usize
    ensures { Laid (provision_line key realm (value_below m.now (place % places) provision)) at text.old text.new result }
{
    text_lines::triple_line(
        text,
        at,
        b"prov=",
        key,
        realm,
        memory_values::value_at(m, place, provision),
    )
}

// provs, and a line for each
fn provision_lines(m: &[u64; WORDS], place: usize, text: &mut [u8], at: usize) -> usize
    ensures { Laid (provisions_lines (plugin_at m.now (place % places)).provisions) at text.old text.new result }
{
    let words = memory_lists::provision_words(m, place);
    let mut behind = text_lines::number_line(text, at, b"provs=", (words.len() / 2) as u64);
    for j in 0..words.len() / 2 {
        behind = provision_line(m, place, text, behind, j, words[j * 2], words[j * 2 + 1]);
    }
    behind
}

// The whole block.
pub fn block(m: &[u64; WORDS], place: usize, text: &mut [u8], at: usize) -> usize
    ensures { Laid (block_of (plugin_at m.now (place % places))) at text.old text.new result }
{
    let life = name_lines(m, place, text, at);
    let lists = life_lines(text, life, memory_life::load(m, place));
    let provisions = list_lines(m, place, text, lists);
    provision_lines(m, place, text, provisions)
}
