// An answer's line on a page, byte by byte.
#![tactic(auto)]

ghost use Rattle.std.specs.Prelude.{◌≡◌, take};
ghost use Rattle.slot_child.specs.Slots.{identity_of, decision_of, slot_of};
ghost use Rattle.host_answers.specs.Answers.{done_by};
ghost use Rattle.console_answer.specs.Pages.{empty_page, put_on, number_on, numbers_on};
ghost use Rattle.console_answer.specs.Answers.{ok_word, told_in, answer_in, refusal_on, answer_on, or_none_on, answer_or_none_on, says_yes, answer_yes_no_on};
ghost use Rattle.console_answer.specs.Slots.{generation_on, identity_on, decision_on, slot_on, decided_as};

use host_answers::{ANSWER, Why};
use slot_child::{Decision, Identity, Slot};

// Room for the longest line of an answer: `ok`, a hundred numbers of 20 digits, each behind a space, and byte 10.
const LINE_ROOM: usize = 2103;

// Room for the longest text that stands behind a line.
pub const TEXT_ROOM: usize = 131072;

pub const ROOM: usize = LINE_ROOM + TEXT_ROOM;

// The text's bytes, and the place up to which they are written.
#[derive(Drop)]
pub struct Page {
    pub text: [u8; ROOM],
    pub place: usize,
}

impl Page {
    pub fn empty() -> Page
        ensures { result ≡ empty_page }
    {
        Page {
            text: [0; ROOM],
            place: 0,
        }
    }

    // What is written.
    pub fn written(&self) -> &[u8]
        ensures { result.now ≡ take self.now.place self.now.text }
    {
        front(&self.text, self.place)
    }

    // Bytes behind what is written; those that do not fit are left out, all of them.
    pub fn put(&mut self, bytes: &[u8])
        ensures { self.new ≡ put_on self.old bytes.now }
    {
        if ROOM < self.place {
            return;
        }
        if ROOM - self.place < bytes.len() {
            return;
        }
        let end = self.place + bytes.len();
        self.text[self.place..end].copy_from_slice(bytes);
        self.place = end;
    }

    // A number behind a space.
    #[tactic(auto, unfolding(crate::specs::Pages::number_on))]
    pub fn number(&mut self, n: u64)
        ensures { self.new ≡ number_on self.old n }
    {
        let mut scratch = [0u8; 20];
        let digits = text_decimal::write_decimal(n, &mut scratch);
        self.put(b" ");
        self.put(digits);
    }

    pub fn numbers(&mut self, list: &[u64])
        ensures { self.new ≡ numbers_on self.old list.now }
    {
        for n in list {
            self.number(*n);
        }
    }

    // The numbers of an answer, which stand behind their count.
    pub fn answer(&mut self, out: &[u64; ANSWER])
        ensures { self.new ≡ numbers_on self.old (told_in out.now) }
    {
        self.numbers(numbers_in(out));
    }

    // The numbers of an answer, or that there are none.
    pub fn answer_or_none(&mut self, out: &[u64; ANSWER])
        ensures { self.new ≡ or_none_on self.old (told_in out.now) }
    {
        let list = numbers_in(out);
        if list.is_empty() {
            self.put(b" none");
            return;
        }
        self.numbers(list);
    }

    // A refusal's number behind `no`.
    #[tactic(auto, unfolding(crate::specs::Answers::refusal_on))]
    fn no(&mut self, why: u64)
        ensures { self.new ≡ refusal_on self.old why }
    {
        self.put(b"no");
        self.number(why);
    }

    // The line of a status, 0 or the refusal's number, and of the numbers told with it.
    pub fn told(&mut self, status: u64, out: &[u64; ANSWER])
        ensures { self.new ≡ answer_on self.old (answer_in status (told_in out.now)) }
    {
        if status == 0 {
            self.put(b"ok");
        } else {
            self.no(status);
        }
        self.answer(out);
    }

    // The same where an answer may have no numbers.
    pub fn or_none(&mut self, status: u64, out: &[u64; ANSWER])
        ensures { self.new ≡ answer_or_none_on self.old (answer_in status (told_in out.now)) }
    {
        if status != 0 {
            self.told(status, out);
            return;
        }
        self.put(b"ok");
        self.answer_or_none(out);
    }

    // The same where an answer is a yes or no.
    pub fn yes_no(&mut self, status: u64, out: &[u64; ANSWER])
        ensures { self.new ≡ answer_yes_no_on self.old (answer_in status (told_in out.now)) }
    {
        if status != 0 {
            self.told(status, out);
            return;
        }
        self.put(b"ok");
        let yes = says_yes(numbers_in(out));
        self.put(if yes { b" yes" } else { b" no" });
    }

    fn generation_or_none(&mut self, generation: Option<u64>)
        ensures { self.new ≡ generation_on self.old generation }
    {
        match generation {
            Some(n) => self.number(n),
            None => self.put(b" none"),
        }
    }

    #[tactic(auto, unfolding(crate::specs::Slots::identity_on))]
    fn identity(&mut self, child: Identity)
        ensures { self.new ≡ identity_on self.old (identity_of child) }
    {
        self.put(b" assigned");
        self.number(child.domain);
        self.number(child.parent);
        self.number(child.id);
    }

    fn decision(&mut self, standing: Decision)
        ensures { self.new ≡ decision_on self.old (decision_of standing) }
    {
        match standing {
            Decision::Pending => self.put(b" pending"),
            Decision::Assigned(child) => self.identity(child),
            Decision::Failed => self.put(b" failed"),
            Decision::Cancelled => self.put(b" cancelled"),
        }
    }

    #[tactic(auto, unfolding(crate::specs::Slots::slot_on))]
    fn ok(&mut self, slot: Slot)
        ensures { self.new ≡ slot_on (put_on self.old ok_word) (slot_of slot) }
    {
        self.put(b"ok");
        self.number(slot.domain);
        self.number(slot.parent);
        self.generation_or_none(slot.generation);
        self.decision(slot.decision);
    }

    // The line of a decision: the slot, or why it was refused.
    pub fn shown<E: Why>(&mut self, slot: Slot, verdict: Result<(), E>)
        ensures { self.new ≡ decided_as self.old (slot_of slot) (done_by E.told verdict) }
    {
        match verdict {
            Ok(()) => self.ok(slot),
            Err(why) => self.no(why.status()),
        }
    }
}

// The numbers that a host is told.
fn numbers_in(out: &[u64]) -> &[u64]
    ensures { result.now ≡ told_in out.now }
{
    if out.is_empty() {
        return out;
    }
    let behind = &out[1..];
    let told = out[0] as usize;
    &behind[..told.min(behind.len())]
}

fn says_yes(list: &[u64]) -> bool
    ensures { result ≡ says_yes list.now }
{
    matches!(list, [1, ..])
}

// So many bytes from the first on, or all that there are.
pub fn front(bytes: &[u8], most: usize) -> &[u8]
    ensures { result.now ≡ take most bytes.now }
{
    &bytes[..most.min(bytes.len())]
}
