// Where the registry's words are; the definitions in Layout have the same names.
use rules::limits;

// The words of the header.
pub const DOMAIN: usize = 0;

pub const FIRST: usize = 1;

pub const NEXT: usize = 2;

// A bit for each place.
pub const OCCUPANCY: usize = 3;

// The words of a place, counted from its number times PLACE_WORDS; there is room for more.
pub const ID: usize = 8;

// Whether there is a parent.
pub const TAG: usize = 9;

pub const PARENT: usize = 10;

pub const REVISION: usize = 11;

pub const PAYLOAD: usize = 12;

pub const PHASE: usize = 13;

pub const RETIRED: usize = 14;

pub const GENERATION: usize = 15;

pub const ROOT: usize = 16;

pub const ROOT_REVISION: usize = 17;

pub const ROOT_ARGUMENT: usize = 18;

pub const FIRST_ROW: usize = 19;

pub const DEPENDENCIES: usize = 20;

pub const PROVISIONS: usize = 21;

pub const REALMS: usize = 22;

// Which provisions have a value.
pub const MASK: usize = 23;

pub const VALUES: usize = 24;

// The realm list: edition, default, rows.
pub const EDITION: usize = 39;

pub const DEFAULT: usize = 40;

pub const REALM_ROWS: usize = 41;

pub const PLACE_WORDS: usize = 72;

pub const PLACES: usize = limits::PLUGINS;

// A row is a port, and the rows follow the places.
pub const ROW_WORDS: usize = 2;

pub const ROWS_START: usize = PLACES * PLACE_WORDS + ID;

// 2^32: a word's remainder by it is its low half.
pub const LOW_HALF: u64 = 4294967296;
