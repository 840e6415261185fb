// The types of document 01 that the rules and the code share, with their constants and constructors.
#![tactic(auto)]

ghost use Rattle.std.specs.Prelude.{◌≡◌};
ghost use Rattle.rules_types.specs.Kinds.{port, default_realm, edition_number, default_of, phase_number};
ghost use Rattle.rules_types.specs.Generations.{generation_of, next_generation};

mod refusal;

pub use refusal::Refusal;

#[derive(Clone, Copy, PartialEq, Eq)]
pub struct Port {
    pub key: u64,
    pub realm: u64,
}

impl Port {
    pub const DEFAULT_REALM: u64 = 0;

    pub fn new(key: u64, realm: u64) -> Port
        ensures { result ≡ port key realm }
    {
        Port { key, realm }
    }

    pub fn in_default_realm(key: u64) -> Port
        ensures { result ≡ port key default_realm }
    {
        Port::new(key, Port::DEFAULT_REALM)
    }
}

// Document 02 [5]: in edition 1 absent keys get realm 0, in edition 2 a default realm that comes with the list.
#[derive(Clone, Copy, PartialEq, Eq)]
pub enum Edition {
    First,
    Second(u64),
}

impl Edition {
    pub fn number(self) -> u64
        ensures { result ≡ edition_number self }
    {
        match self {
            Edition::First => 1,
            Edition::Second(_) => 2,
        }
    }

    // The realm of absent keys.
    pub fn default(self) -> u64
        ensures { result ≡ default_of self }
    {
        match self {
            Edition::First => Port::DEFAULT_REALM,
            Edition::Second(realm) => realm,
        }
    }

    // The port of an absent key.
    pub fn absent(self, key: u64) -> Port
        ensures { result ≡ port key (default_of self) }
    {
        match self {
            Edition::First => Port::in_default_realm(key),
            Edition::Second(realm) => Port::new(key, realm),
        }
    }
}

#[derive(Clone, Copy, PartialEq, Eq)]
pub struct Generation(pub u64);

impl Generation {
    pub const NEVER_BEGUN: Generation = Generation(0);

    pub const LAST: Generation = Generation(u64::MAX);

    pub fn of(number: u64) -> Generation
        ensures { result ≡ generation_of number }
    {
        Generation(number)
    }

    // Generation + 1; the last one stays.
    pub fn next(self) -> Generation
        ensures { result ≡ next_generation self }
    {
        if self == Generation::LAST {
            return self;
        }
        Generation(self.0 + 1)
    }
}

#[derive(Clone, Copy, PartialEq, Eq)]
pub enum Phase {
    Idle,
    Loading,
    Active,
    Unloading,
}

impl Phase {
    pub fn number(self) -> u64
        ensures { result ≡ phase_number self }
    {
        self as u64
    }
}

// Queued holds the revision and the argument.
#[derive(Clone, Copy, PartialEq, Eq)]
pub enum Root {
    Unissued,
    Queued(u64, u64),
    Spent,
}
