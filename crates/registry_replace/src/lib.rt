// Document 01, "Replacement", over the registry's memory.
#![tactic(auto)]

ghost use Rattle.std.specs.Prelude.{◌≡◌};
ghost use Rattle.rules.specs.Outcomes.{answer_of, Meets};
ghost use Rattle.rules.specs.Replacement.{replace, fits};
ghost use Rattle.rules.specs.Answers.{whether_answer};
ghost use Rattle.memory.specs.View.{view};
ghost use Rattle.registry_replace.specs.Answers.{replaced_answer};
ghost use Rattle.registry_replace.specs.Records.{change_of, fits_behind};
ghost use Rattle.registry_replace.specs.Words.{replaced_in};

use memory::WORDS;
use rules::Refusal;

// What a replacement changes of a plugin.
#[derive(Clone, Copy)]
pub struct PayloadRecord {
    pub revision: u64,
    pub payload: u64,
}

// A refusal hands the offered payload back.
#[derive(Clone, Copy)]
pub struct Unreplaced {
    pub why: Refusal,
    pub payload: u64,
}

// The record afterwards, and the former payload or a refusal.
#[derive(Clone, Copy)]
pub struct Change {
    pub next: PayloadRecord,
    pub answer: Result<u64, Unreplaced>,
}

// 16 at the last revision; else the new payload, an equal one too, and revision + 1.
pub fn changed(r: PayloadRecord, payload: u64) -> Change
    ensures { result ≡ change_of r payload }
{
    let last = r.revision == u64::MAX;
    if last {
        let refused = Unreplaced {
            why: Refusal::Exhausted,
            payload,
        };
        return Change {
            next: r,
            answer: Err(refused),
        };
    }
    Change {
        next: PayloadRecord {
            revision: r.revision + 1,
            payload,
        },
        answer: Ok(r.payload),
    }
}

// The record is changed where it lies.
pub fn replace_lent(r: &mut PayloadRecord, payload: u64) -> Result<u64, Unreplaced>
    ensures { (r.new ≡ (change_of r.old payload).next) × (result ≡ (change_of r.old payload).answer) }
{
    let c = changed(*r, payload);
    *r = c.next;
    c.answer
}

// 1, 16, each with the offered payload; else the former payload, in any phase, retired or not.
pub fn replace(m: &mut [u64; WORDS], id: u64, payload: u64) -> Result<u64, Unreplaced>
    ensures { Meets replaced_in (replace (view m.old) id payload) m.old (replaced_answer result) m.new }
{
    let unknown = Unreplaced {
        why: Refusal::Unknown,
        payload,
    };
    let at = memory::find(m, id).ok_or(unknown)?;
    let life = memory_life::load(m, at);
    let mut held = PayloadRecord {
        revision: life.revision,
        payload: life.payload,
    };
    let former = replace_lent(&mut held, payload)?;
    memory_life::renew(m, at, held.revision, held.payload);
    Ok(former)
}

// Whether a count fits behind a revision, by a difference that cannot wrap.
fn fits_behind(revision: u64, count: u64) -> bool
    ensures { result ≡ fits_behind revision count }
{
    count <= u64::MAX - revision
}

// Whether a count of replacements fits: 1, else yes exactly if no revision passes the last.
pub fn fits(m: &[u64; WORDS], id: u64, count: u64) -> Result<bool, Refusal>
    ensures { whether_answer result ≡ answer_of (fits (view m.now) id count) }
{
    let at = memory::look_up(m, id)?;
    let life = memory_life::load(m, at);
    Ok(fits_behind(life.revision, count))
}
