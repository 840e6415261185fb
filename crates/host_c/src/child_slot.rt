// Exported: the child slot, made and decided in words of the host's.
ghost use Rattle.std.specs.Prelude.{◌≡◌};
ghost use Rattle.rules.specs.Slot as rules;
ghost use Rattle.slot_child.specs.Slots.{slot_of};
ghost use Rattle.slot_words.specs.Words.{slot_at, put_slot};
ghost use Rattle.registry_retire.specs.Answers.{identified};
ghost use Rattle.host.specs.Tells.{Decides};

use slot_words::SLOT;

#[unsafe(no_mangle)]
pub extern "C" fn vaskelbi_slot_pending(
    slot: &mut [u64; SLOT],
    domain: u64,
    parent: u64,
    generation: u64,
)
    ensures { slot.new ≡ put_slot slot.old (rules.pending domain parent generation) }
{
    host::vaskelbi_slot_pending(slot, domain, parent, generation)
}

#[unsafe(no_mangle)]
pub extern "C" fn vaskelbi_slot_assigned(slot: &mut [u64; SLOT], domain: u64, parent: u64, id: u64)
    ensures { slot.new ≡ put_slot slot.old (rules.assigned (identified domain parent id)) }
{
    host::vaskelbi_slot_assigned(slot, domain, parent, id)
}

#[unsafe(no_mangle)]
pub extern "C" fn vaskelbi_slot_assign(
    slot: &mut [u64; SLOT],
    domain: u64,
    parent: u64,
    id: u64,
) -> u64
    ensures { Decides (rules.assign (slot_of (slot_at slot.old)) (identified domain parent id))
        slot.old result slot.new }
{
    host::vaskelbi_slot_assign(slot, domain, parent, id)
}

#[unsafe(no_mangle)]
pub extern "C" fn vaskelbi_slot_reject(slot: &mut [u64; SLOT]) -> u64
    ensures { Decides (rules.reject (slot_of (slot_at slot.old))) slot.old result slot.new }
{
    host::vaskelbi_slot_reject(slot)
}

#[unsafe(no_mangle)]
pub extern "C" fn vaskelbi_slot_cancel(slot: &mut [u64; SLOT]) -> u64
    ensures { Decides (rules.cancel (slot_of (slot_at slot.old))) slot.old result slot.new }
{
    host::vaskelbi_slot_cancel(slot)
}
