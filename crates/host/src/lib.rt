// What a host calls, over one lent memory; `host_c` exports it to C and Rust. Each function answers a status, 0 for an
// acceptance or the refusal's number; the numbers of an answer go to `out` behind their count. A refusal leaves the memory,
// the slot, the buffer and `out` as they were, but that a refused replacement answers its payload.
#![tactic(auto, unfolding(memory::specs::View::view))]

ghost use Rattle.std.specs.Prelude.{◌≡◌};
ghost use Rattle.demands.specs.Starts.{blank};

use memory::WORDS;

mod admission;
mod child_slot;
mod keys;
mod lists;
mod order;
mod phases;
mod queries;
mod registration;
mod replacement;
mod retirement;
mod text;
mod value;

pub use admission::{vaskelbi_admit, vaskelbi_admits, vaskelbi_call};
pub use child_slot::{
    vaskelbi_slot_assign, vaskelbi_slot_assigned, vaskelbi_slot_cancel, vaskelbi_slot_pending,
    vaskelbi_slot_reject,
};
pub use keys::{vaskelbi_lookup, vaskelbi_resolve};
pub use lists::{vaskelbi_list_dependencies, vaskelbi_list_provisions, vaskelbi_list_realms};
pub use order::{vaskelbi_check_order, vaskelbi_plan_order};
pub use phases::{vaskelbi_begin, vaskelbi_fail, vaskelbi_finish, vaskelbi_ready, vaskelbi_unload};
pub use queries::{
    vaskelbi_anchor, vaskelbi_count, vaskelbi_domain, vaskelbi_edition, vaskelbi_first,
    vaskelbi_generation, vaskelbi_id_from, vaskelbi_next, vaskelbi_parent, vaskelbi_payload,
    vaskelbi_phase, vaskelbi_retired, vaskelbi_revision, vaskelbi_root, vaskelbi_rows,
};
pub use registration::{vaskelbi_register, vaskelbi_register_child};
pub use replacement::{vaskelbi_fits, vaskelbi_replace};
pub use retirement::{vaskelbi_child, vaskelbi_remove, vaskelbi_retire, vaskelbi_retire_child};
pub use text::{vaskelbi_load, vaskelbi_write_text};
pub use value::{
    vaskelbi_declares, vaskelbi_matches, vaskelbi_missing, vaskelbi_offer, vaskelbi_own,
    vaskelbi_read, vaskelbi_visible,
};

// A fresh registry, whatever the words held before.
pub fn vaskelbi_open(m: &mut [u64; WORDS], domain: u64, first: u64)
    ensures { m.new ≡ blank m.old domain first }
{
    registry_remove::open(m, domain, first)
}
