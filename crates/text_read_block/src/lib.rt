// A plugin's block read from the registry's text: what its lines say, and its lists as words for the memory. Every function takes any
// text.
#![tactic(auto)]

ghost use Rattle.std.specs.Prelude.{◌≡◌, ◌<◌, ◌≤◌, ◌^◌};
ghost use Rattle.text_read_block.specs.Rows.{row_put, one_put};
ghost use Rattle.text_read_block.specs.Lists.{PortsRead, RealmsRead, ProvisionsRead, mask_with};
ghost use Rattle.text_read_block.specs.Blocks.{HeadRead, LinesRead, BlockRead};

use rules::{Phase, Port, Root, limits};

// The most words of a plugin's realm list, led by edition and default, of its dependencies, of its claims, led by the anchor, and of its values.
pub const REALM_WORDS: usize = limits::REALM_ROWS * 2 + 2;

pub const DEPENDENCY_WORDS: usize = limits::DEPENDENCIES * 2;

pub const CLAIM_WORDS: usize = limits::PROVISION_KEYS * 2 + 2;

pub const VALUE_WORDS: usize = limits::PROVISION_KEYS;

// A block's lists. They are lent, so that none is copied.
#[derive(Drop)]
pub struct Lists {
    pub realms: [u64; REALM_WORDS],
    pub dependencies: [u64; DEPENDENCY_WORDS],
    pub claims: [u64; CLAIM_WORDS],
    pub values: [u64; VALUE_WORDS],
}

impl Lists {
    pub const EMPTY: Lists = Lists {
        realms: [0; REALM_WORDS],
        dependencies: [0; DEPENDENCY_WORDS],
        claims: [0; CLAIM_WORDS],
        values: [0; VALUE_WORDS],
    };
}

// What a block says beside its lists: of these the lengths, how many provisions have a value, and which; and the place behind it.
#[derive(Clone, Copy)]
pub struct Block {
    pub id: u64,
    pub parent: Option<u64>,
    pub phase: Phase,
    pub retired: bool,
    pub generation: u64,
    pub revision: u64,
    pub payload: u64,
    pub root: Root,
    pub realms: u64,
    pub dependencies: u64,
    pub provisions: u64,
    pub valued: u64,
    pub mask: u64,
    pub next: usize,
}

// The lines before the lists, the anchor last, and the place behind them.
#[derive(Clone, Copy)]
struct Head {
    id: u64,
    parent: Option<u64>,
    phase: Phase,
    retired: bool,
    generation: u64,
    revision: u64,
    payload: u64,
    root: Root,
    anchor: Port,
    next: usize,
}

// How many provisions were read, how many of them have a value, and which; and the place behind them.
#[derive(Clone, Copy)]
struct Provided {
    count: u64,
    valued: u64,
    mask: u64,
    next: usize,
}

// A row's words, if there is room for it.
fn put_row(into: &mut [u64], row: u64, port: Port)
    ensures { into.new ≡ row_put into.old row port.key port.realm }
{
    let i = row as usize;
    if i < into.len() / 2 {
        into[i * 2] = port.key;
        into[i * 2 + 1] = port.realm;
    }
}

fn put_one(into: &mut [u64], place: u64, n: u64)
    ensures { into.new ≡ one_put into.old place n }
{
    let i = place as usize;
    if i < into.len() {
        into[i] = n;
    }
}

// A list of ports: its lines go to lent words from a row on, as far as they have room. From 0 or 1 on no row's number passes 2^64 − 1.
fn ports(
    text: &[u8],
    at: usize,
    plural: &[u8],
    key: &[u8],
    into: &mut [u64],
    row: u64,
) -> Option<(u64, usize)>
    requires { row ≤ 1 }
    ensures { PortsRead plural.now key.now text.now at into.old row result into.new }
{
    let (lines, mut behind) = text_read::number_line(text, Some(at), plural)?;
    for i in 0..lines {
        let (port, next) = text_read::pair_line(text, Some(behind), key)?;
        put_row(into, row + i, port);
        behind = next;
    }
    Some((lines, behind))
}

// The realm list: edition and default lead it, as the memory has them.
fn realm_lines(text: &[u8], at: usize, into: &mut [u64]) -> Option<(u64, usize)>
    ensures { RealmsRead text.now at into.old result into.new }
{
    let (edition, at) = text_read::edition_lines(text, Some(at))?;
    put_row(into, 0, Port::new(edition.number(), edition.default()));
    ports(text, at, b"realms=", b"realm=", into, 1)
}

// The mask of values with one bit more; past the 15th provision there is none.
fn masked(mask: u64, i: u64, valued: bool) -> u64
    requires { mask < 2 ^ 15 }
    ensures { result ≡ mask_with mask i valued }
{
    if i < (limits::PROVISION_KEYS as u64) {
        if valued {
            return mask + (1 << i);
        }
    }
    mask
}

// The provisions: their ports go behind the claims' first row, which is the anchor's, and their values to the front of lent words.
fn provisions(text: &[u8], at: usize, claims: &mut [u64], values: &mut [u64]) -> Option<Provided>
    ensures { ProvisionsRead text.now at claims.old values.old result claims.new values.new }
{
    let (count, mut next) = text_read::number_line(text, Some(at), b"provs=")?;
    let mut valued: u64 = 0;
    let mut mask: u64 = 0;
    for i in 0..count {
        let (provision, behind) = text_read::provision_line(text, Some(next), b"prov=")?;
        let value = provision.value;
        put_row(claims, i + 1, provision.port);
        let has_value = value.is_some();
        put_one(values, i, value.unwrap_or(0));
        mask = masked(mask, i, has_value);
        valued += has_value as u64;
        next = behind;
    }
    Some(Provided {
        count,
        valued,
        mask,
        next,
    })
}

// The lines before the lists.
fn before_lists(text: &[u8], at: Option<usize>) -> Option<Head>
    ensures { HeadRead text.now at result }
{
    let (id, at) = text_read::number_line(text, at, b"id=")?;
    let (parent, at) = text_read::option_line(text, Some(at), b"parent=")?;
    let (phase, at) = text_read::phase_line(text, Some(at))?;
    let (retired, at) = text_read::mark_line(text, Some(at))?;
    let (generation, at) = text_read::number_line(text, Some(at), b"generation=")?;
    let (revision, at) = text_read::number_line(text, Some(at), b"revision=")?;
    let (payload, at) = text_read::number_line(text, Some(at), b"payload=")?;
    let (root, at) = text_read::root_lines(text, Some(at))?;
    let (anchor, next) = text_read::pair_line(text, Some(at), b"anchor=")?;
    Some(Head {
        id,
        parent,
        phase,
        retired,
        generation,
        revision,
        payload,
        root,
        anchor,
        next,
    })
}

// The lines, each read behind the one before; the lists go to the front of lent words, the anchor in front of the claims.
fn read_lines(text: &[u8], at: Option<usize>, lists: &mut Lists) -> Option<Block>
    ensures { LinesRead text.now at lists.old result lists.new }
{
    let head = before_lists(text, at)?;
    put_row(&mut lists.claims, 0, head.anchor);
    let (realms, at) = realm_lines(text, head.next, &mut lists.realms)?;
    let (dependencies, at) = ports(text, at, b"deps=", b"dep=", &mut lists.dependencies, 0)?;
    let provided = provisions(text, at, &mut lists.claims, &mut lists.values)?;
    Some(Block {
        id: head.id,
        parent: head.parent,
        phase: head.phase,
        retired: head.retired,
        generation: head.generation,
        revision: head.revision,
        payload: head.payload,
        root: head.root,
        realms,
        dependencies,
        provisions: provided.count,
        valued: provided.valued,
        mask: provided.mask,
        next: provided.next,
    })
}

// The block at a place. Where it is torn, what was read before the tear is cleared; of none, none is answered and all is cleared.
pub fn read_block(text: &[u8], at: Option<usize>, lists: &mut Lists) -> Option<Block>
    ensures { BlockRead text.now at lists.old result lists.new }
{
    let block = read_lines(text, at, lists);
    if block.is_none() {
        *lists = Lists::EMPTY;
    }
    block
}
