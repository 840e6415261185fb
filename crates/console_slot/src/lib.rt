// The slot's operations: a new slot, or a decision of the one that is there.
#![tactic(auto)]

ghost use Rattle.std.specs.Prelude.{◌≡◌, option_map};
ghost use Rattle.slot_child.specs.Slots.{identity_of, slot_of, decided_of};
ghost use Rattle.console_slot.specs.Operations.{new_slot, with_none, with_three, decided_by};
ghost use Rattle.console_slot.specs.Lines.{LeavesSlot, decided_or, slot_line};

use console_answer::Page;
use slot_child::{Decided, Identity, Slot};

// A new slot takes the old one's place.
fn new_slot(slot: Slot) -> Decided
    ensures { decided_of result ≡ new_slot (slot_of slot) }
{
    Decided {
        slot,
        verdict: Ok(()),
    }
}

fn with_none(slot: Slot, name: &[u8]) -> Option<Decided>
    ensures { option_map decided_of result ≡ with_none (slot_of slot) name.now }
{
    if console_words::is_word(name, b"reject") {
        return Some(slot.reject());
    }
    if console_words::is_word(name, b"cancel") {
        return Some(slot.cancel());
    }
    None
}

fn with_three(slot: Slot, name: &[u8], child: Identity) -> Option<Decided>
    ensures { option_map decided_of result ≡ with_three (slot_of slot) name.now (identity_of child) }
{
    if console_words::is_word(name, b"pending") {
        return Some(new_slot(Slot::pending(child.domain, child.parent, child.id)));
    }
    if console_words::is_word(name, b"assigned") {
        return Some(new_slot(Slot::assigned(child)));
    }
    if console_words::is_word(name, b"assign") {
        return Some(slot.assign(child));
    }
    None
}

// What a slot comes to by the operation of this name with these numbers, if it is one.
pub fn decided_by(slot: Slot, name: &[u8], list: &[u64]) -> Option<Decided>
    ensures { option_map decided_of result ≡ decided_by (slot_of slot) name.now list.now }
{
    match list {
        [] => with_none(slot, name),
        [domain, parent, id] => with_three(
            slot,
            name,
            Identity {
                domain: *domain,
                parent: *parent,
                id: *id,
            },
        ),
        _ => None,
    }
}

// What a decision says, and the slot it leaves; a bad line leaves the slot.
fn after(slot: Slot, decided: Option<Decided>, page: &mut Page) -> Slot
    ensures { LeavesSlot (decided_or page.old (slot_of slot) (option_map decided_of decided))
        page.new (slot_of result) }
{
    let Some(decided) = decided else {
        page.put(b"bad");
        return slot;
    };
    page.shown(decided.slot, decided.verdict);
    decided.slot
}

// What stands behind the word `slot`.
pub fn slot_line(slot: Slot, bytes: &[u8], from: usize, page: &mut Page) -> Slot
    ensures { LeavesSlot (slot_line page.old (slot_of slot) bytes.now from) page.new (slot_of result) }
{
    let word = console_words::next_word(bytes, from);
    let mut n = [0u64; 2048];
    let Ok(count) = console_names::numbers(bytes, word.stop, &mut n) else {
        return after(slot, None, page);
    };
    let decided = decided_by(slot, &bytes[word.start..word.stop], &n[..count]);
    after(slot, decided, page)
}
