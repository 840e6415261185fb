// Child slot: it is made and decided in words of the host's.
ghost use Rattle.std.specs.Prelude.{◌≡◌};
ghost use Rattle.rules.specs.Slot as rules;
ghost use Rattle.slot_child.specs.Slots.{slot_of};
ghost use Rattle.slot_words.specs.Words.{slot_at, put_slot};
ghost use Rattle.registry_retire.specs.Answers.{identified};
ghost use Rattle.host.specs.Tells.{Decides};

use slot_child::{Identity, Slot};
use slot_words::SLOT;

// A child slot is eight words of the host's: domain, parent, 1 with a generation or 0, generation, decision (0 Pending,
// 1 Assigned, 2 Failed, 3 Cancelled), and the assigned domain, parent and id. What a slot lacks is not written.
pub fn vaskelbi_slot_pending(slot: &mut [u64; SLOT], domain: u64, parent: u64, generation: u64)
    ensures { slot.new ≡ put_slot slot.old (rules.pending domain parent generation) }
{
    slot_words::store(slot, Slot::pending(domain, parent, generation))
}

// A slot made Assigned has no generation.
pub fn vaskelbi_slot_assigned(slot: &mut [u64; SLOT], domain: u64, parent: u64, id: u64)
    ensures { slot.new ≡ put_slot slot.old (rules.assigned (identified domain parent id)) }
{
    let child = Identity { domain, parent, id };
    slot_words::store(slot, Slot::assigned(child))
}

pub fn vaskelbi_slot_assign(slot: &mut [u64; SLOT], domain: u64, parent: u64, id: u64) -> u64
    ensures { Decides (rules.assign (slot_of (slot_at slot.old)) (identified domain parent id))
        slot.old result slot.new }
{
    let child = Identity { domain, parent, id };
    host_answers::done(slot_words::assign(slot, child))
}

pub fn vaskelbi_slot_reject(slot: &mut [u64; SLOT]) -> u64
    ensures { Decides (rules.reject (slot_of (slot_at slot.old))) slot.old result slot.new }
{
    host_answers::done(slot_words::reject(slot))
}

pub fn vaskelbi_slot_cancel(slot: &mut [u64; SLOT]) -> u64
    ensures { Decides (rules.cancel (slot_of (slot_at slot.old))) slot.old result slot.new }
{
    host_answers::done(slot_words::cancel(slot))
}
