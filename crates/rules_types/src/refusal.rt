// Document 01's refusals with their numbers, and document 02's; the definition `number` has the same.
ghost use Rattle.std.specs.Prelude.{◌≡◌};
ghost use Rattle.rules_types.specs.Refusals.{number};

#[derive(Clone, Copy, PartialEq, Eq)]
pub enum Refusal {
    Unknown = 1,
    Retired = 2,
    InvalidState = 3,
    BadRealms = 4,
    TooManyKeys = 5,
    DuplicateDependency = 6,
    DuplicateProvision = 7,
    Taken = 8,
    NoId = 9,
    Full = 10,
    TooLong = 11,
    NoRows = 12,
    Stale = 13,
    Unavailable = 14,
    InUse = 15,
    Exhausted = 16,
    NotRun = 17,
    HasChildren = 18,
    Closed = 19,
    Undeclared = 20,
    Duplicate = 21,
    Missing = 22,
    ShortBuffer = 23,
    BadText = 24,
    SameDomain = 25,
    BadEdition = 26,
    Repeated = 27,
}

impl Refusal {
    pub fn number(self) -> u64
        ensures { result ≡ number self }
    {
        self as u64
    }
}
