// Document 01, "Child slot": a slot goes in and comes back as a plain value. A decision never changes.
#![tactic(auto)]

ghost use Rattle.std.specs.Prelude.{◌≡◌, true, []};
ghost use Rattle.rules.specs.Outcomes.{Accepted};
ghost use Rattle.rules.specs.Slot as rules;
ghost use Rattle.slot_child.specs.Slots.{slot_of, identity_of, is_of, decision_of, decided_of, refused_of};

use rules::Refusal;

// A child identity.
#[derive(Clone, Copy)]
pub struct Identity {
    pub domain: u64,
    pub parent: u64,
    pub id: u64,
}

impl Identity {
    // Whether it is of this domain and this parent.
    pub fn is_of(self, domain: u64, parent: u64) -> bool
        ensures { result ≡ is_of (identity_of self) domain parent }
    {
        if self.domain != domain {
            return false;
        }
        self.parent == parent
    }
}

#[derive(Clone, Copy)]
pub enum Decision {
    Pending,
    Assigned(Identity),
    Failed,
    Cancelled,
}

#[derive(Clone, Copy)]
pub struct Slot {
    pub domain: u64,
    pub parent: u64,
    pub generation: Option<u64>,
    pub decision: Decision,
}

#[derive(Clone, Copy)]
pub struct Decided {
    pub slot: Slot,
    pub verdict: Result<(), Refusal>,
}

impl Slot {
    pub fn pending(domain: u64, parent: u64, generation: u64) -> Slot
        ensures { slot_of result ≡ rules.pending domain parent generation }
    {
        Slot {
            domain: domain,
            parent: parent,
            generation: Some(generation),
            decision: Decision::Pending,
        }
    }

    pub fn assigned(child: Identity) -> Slot
        ensures { slot_of result ≡ rules.assigned (identity_of child) }
    {
        Slot {
            domain: child.domain,
            parent: child.parent,
            generation: None,
            decision: Decision::Assigned(child),
        }
    }

    pub fn assign(self, child: Identity) -> Decided
        ensures { decided_of result ≡ rules.assign (slot_of self) (identity_of child) }
    {
        if !child.is_of(self.domain, self.parent) {
            return self.refused();
        }
        self.decided(Decision::Assigned(child))
    }

    pub fn reject(self) -> Decided
        ensures { decided_of result ≡ rules.reject (slot_of self) }
    {
        self.decided(Decision::Failed)
    }

    pub fn cancel(self) -> Decided
        ensures { decided_of result ≡ rules.cancel (slot_of self) }
    {
        self.decided(Decision::Cancelled)
    }

    // The slot as it was, with refusal 3.
    fn refused(self) -> Decided
        ensures { decided_of result ≡ refused_of (slot_of self) }
    {
        Decided {
            slot: self,
            verdict: Err(Refusal::InvalidState),
        }
    }

    // Only a Pending slot takes a decision.
    fn decided(self, next: Decision) -> Decided
        ensures { decided_of result ≡ rules.decided (slot_of self) true (decision_of next) }
    {
        let standing = self.decision;
        match standing {
            Decision::Pending => self.taking(next),
            Decision::Assigned(_) => self.refused(),
            Decision::Failed => self.refused(),
            Decision::Cancelled => self.refused(),
        }
    }

    // The slot with the decision.
    fn taking(self, next: Decision) -> Decided
        ensures { decided_of result ≡ record { slot = rules.with_decision (slot_of self) (decision_of next); answer = Accepted [] } }
    {
        let generation = self.generation;
        Decided {
            slot: Slot {
                domain: self.domain,
                parent: self.parent,
                generation: generation,
                decision: next,
            },
            verdict: Ok(()),
        }
    }
}
