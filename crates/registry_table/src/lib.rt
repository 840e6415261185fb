// Document 01, "Phases": the table of phases and steps, which is the whole rule, and the ticket that a step answers.
#![tactic(auto)]

ghost use Rattle.std.specs.Prelude.{◌≡◌};
ghost use Rattle.rules.specs.Phases.{cell};
ghost use Rattle.registry_table.specs.Table.{ruled};

use rules::Phase;

// The kind of a Setup ticket, which beginning answers and admission asks for.
pub const SETUP: u64 = 1;

#[derive(Clone, Copy, PartialEq, Eq)]
pub struct Ticket {
    pub domain: u64,
    pub id: u64,
    pub generation: u64,
    pub kind: u64,
}

#[derive(Clone, Copy, PartialEq, Eq)]
pub enum Step {
    Begin,
    Ready,
    Fail,
    Unload,
    Finish,
}

// A row for each of Idle, Loading, Active and Unloading; an empty cell is a refusal.
const NEXT: [[Option<Phase>; 5]; 4] = [
    // begin, ready, fail, unload, finish
    [Some(Phase::Loading), None, None, None, None],
    [
        None,
        Some(Phase::Active),
        Some(Phase::Unloading),
        None,
        None,
    ],
    [None, None, None, Some(Phase::Unloading), None],
    [None, None, None, None, Some(Phase::Idle)],
];

// The cell of a phase and a step.
pub fn next(phase: Phase, step: Step) -> Option<Phase>
    ensures { result ≡ cell phase (ruled step) }
{
    NEXT[phase as usize][step as usize]
}
