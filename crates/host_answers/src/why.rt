// What a refusal is told by: document 01's by its number, and a number by itself.
ghost use Rattle.std.specs.Prelude.{◌≡◌, ℕ};
ghost use Rattle.rules.specs.Refusals.{number};

use registry_replace::Unreplaced;
use rules::Refusal;

pub trait Why {
    ghost told: { Self → ℕ };

    fn status(self) -> u64
        ensures { result ≡ told self };
}

impl Why for Refusal {
    ghost told = { number };

    fn status(self) -> u64 {
        self.number()
    }
}

impl Why for u64 {
    ghost told = { λ n. n };

    fn status(self) -> u64 {
        self // as it is
    }
}

// A refused replacement has the payload that was offered too; both are told.
pub trait Offered {
    ghost told: { Self → ℕ };

    ghost offered: { Self → ℕ };

    fn both(self) -> (u64, u64)
        ensures { result ≡ (told self, offered self) };
}

impl Offered for Unreplaced {
    ghost told = { λ u. number u.why };

    ghost offered = { λ u. u.payload };

    fn both(self) -> (u64, u64) {
        (self.why.number(), self.payload)
    }
}

// Two numbers: the refusal's, and the payload.
impl Offered for (u64, u64) {
    ghost told = { λ u. u.0 };

    ghost offered = { λ u. u.1 };

    fn both(self) -> (u64, u64) {
        self
    }
}
