// A plugin of a text, read from its block: what is asked of it beside the plugins before it, and how it is written. Any numbers may
// be handed in.
#![tactic(auto)]

ghost use Rattle.std.specs.Prelude.{◌≡◌, ◌%◌};
ghost use Rattle.rules.specs.Load.{unqueued_root};
ghost use Rattle.memory.specs.Layout.{places};
ghost use Rattle.memory.specs.View.{view};
ghost use Rattle.registry_block.specs.Numbers.{numbers_of, root_said};
ghost use Rattle.registry_block.specs.Blocks.{loaded_life, entry_of};
ghost use Rattle.registry_block.specs.Lives.{life_by, counts_by, Within};
ghost use Rattle.registry_block.specs.Joins.{block_fits, block_put, joined_by, Joins};

use memory::{Life, WORDS};
use memory_entry::Entry;
use rules::{Edition, Generation, Phase, Root, limits};
use text_read_block::{Block, Lists};

// What a block says, in any numbers: tag 0 is no parent, and queued the revision of a root that is Queued, which is 1. The place
// behind it is none where it is torn.
#[derive(Clone, Copy)]
pub struct Numbers {
    pub id: u64,
    pub tag: u64,
    pub parent: u64,
    pub phase: u64,
    pub retired: u64,
    pub generation: u64,
    pub revision: u64,
    pub payload: u64,
    pub root: u64,
    pub queued: u64,
    pub realms: u64,
    pub dependencies: u64,
    pub provisions: u64,
    pub valued: u64,
    pub mask: u64,
    pub next: Option<usize>,
}

// The place behind a block whose plugin joined, the rows in use then, and the lowest id that may follow.
#[derive(Clone, Copy)]
pub struct Joined {
    pub next: usize,
    pub rows: usize,
    pub from: u64,
}

impl Numbers {
    // What a read block says.
    pub fn of(b: &Block) -> Numbers
        ensures { result ≡ numbers_of b.now }
    {
        let parent = b.parent;
        let (root, queued) = match b.root {
            Root::Unissued => (0, 0),
            Root::Queued(revision, _) => (1, revision),
            Root::Spent => (2, 0),
        };
        Numbers {
            id: b.id,
            tag: parent.is_some() as u64,
            parent: parent.unwrap_or(0),
            phase: b.phase.number(),
            retired: b.retired as u64,
            generation: b.generation,
            revision: b.revision,
            payload: b.payload,
            root,
            queued,
            realms: b.realms,
            dependencies: b.dependencies,
            provisions: b.provisions,
            valued: b.valued,
            mask: b.mask,
            next: Some(b.next),
        }
    }
}

// A number above 2 is no root's: it is judged and loaded as a Queued root of revision 0, which is never above the block's.
fn root_said(root: u64, queued: u64) -> Root
    ensures { result ≡ root_said root queued }
{
    match root {
        0 => Root::Unissued,
        1 => Root::Queued(queued, 0),
        2 => Root::Spent,
        _ => Root::Queued(0, 0),
    }
}

// Idle has root Unissued and no values; the others need generation 1 or more; Active has root Spent and every value; a queued
// revision is not above the revision.
fn life_fits(b: &Numbers) -> bool
    ensures { result ≡ life_by b.now }
{
    let begun = b.generation != 0;
    let root = root_said(b.root, b.queued);
    let in_order = match root {
        Root::Queued(revision, _) => revision <= b.revision,
        Root::Unissued | Root::Spent => true,
    };
    match memory_life::phase_of(b.phase) {
        Phase::Idle => root == Root::Unissued && b.valued == 0,
        Phase::Loading => begun && in_order,
        Phase::Active => begun && root == Root::Spent && b.valued == b.provisions,
        Phase::Unloading => begun && in_order,
    }
}

// An issued id that is not below the lowest, and lists and rows within their limits.
fn counts_fit(b: &Numbers, from: u64, next: u64, rows: usize) -> bool
    ensures { result ≡ counts_by b.now from next rows }
{
    from <= b.id
        && b.id < next
        && b.realms <= (limits::REALM_ROWS as u64)
        && b.dependencies <= (limits::DEPENDENCIES as u64)
        && b.provisions <= (limits::PROVISION_KEYS as u64)
        && rows <= limits::ROWS
        && rows + (b.dependencies as usize) + (b.provisions as usize) < limits::ROWS
}

// A Queued root is loaded as Unissued.
fn unqueued(root: Root) -> Root
    ensures { result ≡ unqueued_root root }
{
    match root {
        Root::Unissued => Root::Unissued,
        Root::Queued(_, _) => Root::Unissued,
        Root::Spent => Root::Spent,
    }
}

// What is written of it beside its life and lists.
fn entry(b: &Numbers, edition: Edition, rows: usize, next: u64) -> Entry
    ensures { result ≡ entry_of b.now edition rows next }
{
    Entry {
        id: b.id,
        tag: b.tag,
        parent: b.parent,
        payload: b.payload,
        start: rows as u64,
        dependencies: b.dependencies,
        provisions: b.provisions,
        realms: b.realms,
        edition: edition.number(),
        default: edition.default(),
        next,
    }
}

fn life(b: &Numbers) -> Life
    ensures { result ≡ loaded_life b.now }
{
    Life {
        revision: b.revision,
        payload: b.payload,
        phase: memory_life::phase_of(b.phase),
        retired: b.retired != 0,
        generation: Generation::of(b.generation),
        root: unqueued(root_said(b.root, b.queued)),
    }
}

// Whether a block's plugin fits beside those before it: its numbers, its life and its ports.
fn fits(w: &[u64; WORDS], b: &Numbers, lists: &Lists, from: u64, next: u64, rows: usize) -> bool
    ensures { result ≡ block_fits (view w.now) b.now lists.now from next rows }
{
    if !counts_fit(b, from, next, rows) {
        return false;
    }
    if !life_fits(b) {
        return false;
    }
    let claimed = memory_lists::some_words(&lists.claims, 0, (b.provisions as usize) * 2 + 2);
    registry_joins::ports_fit(
        w,
        memory::parent_from(b.tag, b.parent),
        ports::port_at(claimed, 0),
        memory_lists::some_words(&lists.realms, 0, (b.realms as usize) * 2 + 2),
        memory_lists::some_words(claimed, 2, claimed.len()),
        memory_lists::some_words(&lists.dependencies, 0, (b.dependencies as usize) * 2),
    )
}

// The plugin of a block that fits, written to a place.
fn put(
    w: &mut [u64; WORDS],
    b: &Numbers,
    lists: &Lists,
    behind: usize,
    place: usize,
    rows: usize,
    next: u64,
) -> Joined
    requires { Within b.now next rows }
    ensures { (result ≡ joined_by b.now behind rows) × (w.new ≡ block_put w.old b.now lists.now (place % places) rows next) }
{
    let listed = memory_lists::some_words(&lists.realms, 0, (b.realms as usize) * 2 + 2);
    memory_load::load_place(
        w,
        place,
        entry(b, ports_realms::edition(listed), rows, next),
        life(b),
        ports_realms::rows(listed),
        memory_lists::some_words(&lists.dependencies, 0, (b.dependencies as usize) * 2),
        memory_lists::some_words(&lists.claims, 0, (b.provisions as usize) * 2 + 2),
        b.mask,
        memory_lists::some_words(&lists.values, 0, b.provisions as usize),
    );
    Joined {
        next: behind,
        rows: rows + (b.dependencies as usize) + (b.provisions as usize) + 1,
        from: b.id + 1,
    }
}

// A block's plugin joins those before it, in a place, if it is whole and fits; else nothing is written.
pub fn join(
    w: &mut [u64; WORDS],
    b: &Numbers,
    lists: &Lists,
    place: usize,
    rows: usize,
    from: u64,
    next: u64,
) -> Option<Joined>
    ensures { Joins w.old b.now lists.now (place % places) rows from next result w.new }
{
    let behind = b.next?;
    if !fits(w, b, lists, from, next, rows) {
        return None;
    }
    Some(put(w, b, lists, behind, place, rows, next))
}
