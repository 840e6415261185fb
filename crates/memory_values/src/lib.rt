// A plugin's values: one for each provision, or none. Every function takes any words; a place is read modulo 32, and there are 15 provisions.
#![tactic(auto)]

ghost use Rattle.std.specs.Prelude.{◌≡◌, ◌+◌, ◌*◌, ◌%◌, set};
ghost use Rattle.rules.specs.Holds.{port};
ghost use Rattle.rules.specs.Ports.{pairs};
ghost use Rattle.rules.specs.Values.{value_in};
ghost use Rattle.memory.specs.View.{plugin_at};
ghost use Rattle.memory.specs.Layout.{place_words, places, mask_word};
ghost use Rattle.memory_values.specs.Values.{has_value, value_below, port_from, lack_from, with_value_below, put_values};

use memory::layout::{LOW_HALF, PLACE_WORDS, PLACES};
use memory::{WORDS, layout};
use rules::{Port, limits};

// Whether a provision has a value: its bit in the mask. Past the 15th none has.
fn has_value(m: &[u64; WORDS], place: usize, provision: usize) -> bool
    ensures { result ≡ has_value m.now (place % places) provision }
{
    if provision < limits::PROVISION_KEYS {
        let b = place % PLACES * PLACE_WORDS;
        (m[b + layout::MASK] >> provision) % 2 == 1
    } else {
        false
    }
}

// The value of a provision, or nothing.
pub fn value_at(m: &[u64; WORDS], place: usize, provision: usize) -> Option<u64>
    ensures { result ≡ value_below m.now (place % places) provision }
{
    if has_value(m, place, provision) {
        let b = place % PLACES * PLACE_WORDS;
        Some(m[b + layout::VALUES + provision])
    } else {
        None
    }
}

// The place of the first port of the list that is the same.
pub fn place_of(list: &[u64], port: Port) -> Option<usize>
    ensures { result ≡ port_from 0 port (pairs list.now) }
{
    for i in 0..list.len() / 2 {
        if list[i * 2] == port.key && list[i * 2 + 1] == port.realm {
            return Some(i);
        }
    }
    None
}

// The value of a port among the plugin's provisions, or nothing.
pub fn value_of(m: &[u64; WORDS], place: usize, port: Port) -> Option<u64>
    ensures { result ≡ value_in port (plugin_at m.now (place % places)).provisions }
{
    let Some(j) = place_of(memory_lists::provision_words(m, place), port) else {
        return None;
    };
    value_at(m, place, j)
}

// The first provision without a value: a plugin has 15 at most, so the low half of the mask tells.
pub fn first_lacking(m: &[u64; WORDS], place: usize) -> Option<usize>
    ensures { result ≡ lack_from 0 (plugin_at m.now (place % places)).provisions }
{
    let words = memory_lists::provision_words(m, place);
    let b = place % PLACES * PLACE_WORDS;
    let mask = (m[b + layout::MASK] % LOW_HALF) as u32;
    let j = u32::trailing_zeros(!mask) as usize;
    if j < words.len() / 2 { Some(j) } else { None }
}

// A provision that has no value gets one. Past the 15th nothing changes.
pub fn set_value(m: &mut [u64; WORDS], place: usize, provision: usize, value: u64)
    ensures { m.new ≡ with_value_below m.old (place % places) provision value }
{
    if limits::PROVISION_KEYS <= provision {
        return;
    }
    if has_value(m, place, provision) {
        return;
    }
    let b = place % PLACES * PLACE_WORDS;
    m[b + layout::MASK] = m[b + layout::MASK] | 1 << provision;
    m[b + layout::VALUES + provision] = value;
}

// No provision of the place has a value any more.
pub fn drop_values(m: &mut [u64; WORDS], place: usize)
    ensures { m.new ≡ set m.old (place % places * place_words + mask_word) 0 }
{
    let b = place % PLACES * PLACE_WORDS;
    m[b + layout::MASK] = 0;
}

// A place's mask of values and the first 15 values.
pub fn put_values(m: &mut [u64; WORDS], place: usize, mask: u64, values: &[u64])
    ensures { m.new ≡ put_values m.old (place % places) mask values.now }
{
    let b = place % PLACES * PLACE_WORDS;
    m[b + layout::MASK] = mask;
    for k in 0..values.len().min(limits::PROVISION_KEYS) {
        m[b + layout::VALUES + k] = values[k];
    }
}
