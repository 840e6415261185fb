// A line of the console: what it says on a page, and what it leaves of the registry, the buffer and the slot.
#![tactic(auto)]

ghost use Rattle.std.specs.Prelude.{◌≡◌};
ghost use Rattle.slot_child.specs.Slots.{slot_of};
ghost use Rattle.console_answer.specs.Answers.{told_in};
ghost use Rattle.console_names.specs.Behind.{numbers_behind};
ghost use Rattle.console_names.specs.Table.{rest, asked_at};
ghost use Rattle.console_names.specs.declared.Values.TheVariants.{YesOrNo};
ghost use Rattle.console_order.specs.Checks.{sets_in, checking};
ghost use Rattle.console_order.specs.Plans.{planned_on, lent_ids};
ghost use Rattle.console_show.specs.Spoken.{spoken_on};
ghost use Rattle.console_slot.specs.Lines.{slot_line};
ghost use Rattle.console_line.specs.Lines.{line_end, bad, text_on, lent_bytes, listed, asked_line, asked_done, numbers_line, or_bad, register_line};
ghost use Rattle.console_line.specs.Console.{Leaves, keeps_slot, keeps_registry, slot_ended, operate, answered, line_ended};

use console_answer::{Page, TEXT_ROOM};
use console_names::{BUFFER_ROOM, Count, Held, Kind, Row, Values};
use console_words::LINE;
use host_answers::ANSWER;
use memory::WORDS;
use slot_child::Slot;

// A registry's words, a buffer for numbers, and a slot.
#[derive(Drop)]
pub struct Console {
    pub memory: [u64; WORDS],
    pub buffer: [u64; BUFFER_ROOM],
    pub slot: Slot,
}

impl Console {
    fn list_line(&mut self, held: Held, l: &[u64], page: &mut Page)
        ensures { Leaves (keeps_slot (slot_of self.old.slot)
            (listed page.old self.old.memory self.old.buffer held l.now)) page.new self.new }
    {
        let id = console_names::nth(l, 0);
        let from = console_names::nth(l, 1);
        let mut out = [0u64; ANSWER];
        let status = console_operations::listed(
            &self.memory,
            &mut self.buffer,
            held,
            id,
            from,
            &mut out,
        );
        said(page, Values::Numbers, status, &out);
    }

    fn asked_line(&mut self, place: usize, values: Values, l: &[u64], page: &mut Page)
        ensures { Leaves (keeps_slot (slot_of self.old.slot)
            (asked_done page.old self.old.memory self.old.buffer values (asked_at place l.now))) page.new self.new }
    {
        let mut out = [0u64; ANSWER];
        let status = console_operations::carried_out(&mut self.memory, place, l, &mut out);
        said(page, values, status, &out);
    }

    // Numbers, as many as are due. Of a load nothing is said before its text has come.
    fn numbers_line(&mut self, place: usize, kind: Kind, l: &[u64], page: &mut Page)
        ensures { Leaves (keeps_slot (slot_of self.old.slot)
            (numbers_line page.old self.old.memory self.old.buffer place kind l.now)) page.new self.new }
    {
        let a = console_names::nth(l, 0);
        let b = console_names::nth(l, 1);
        match kind {
            Kind::Show => {
                console_show::shown(&self.memory, a, page);
                end(page);
            }
            Kind::Buffer => {
                console_show::buffered(&self.buffer, a, b, page);
                end(page);
            }
            Kind::Lists(held) => self.list_line(held, l, page),
            Kind::Registry(_, values) => self.asked_line(place, values, l, page),
            Kind::Text => text_line(&self.memory, a, page),
            Kind::Load => (),
            Kind::Plan => plan_line(&self.memory, a, l, page),
        }
    }

    // An operation whose words are all numbers.
    fn behind_line(
        &mut self,
        place: usize,
        count: Count,
        kind: Kind,
        bytes: &[u8],
        from: usize,
        page: &mut Page,
    )
        ensures { Leaves (keeps_slot (slot_of self.old.slot)
            (or_bad page.old self.old.memory self.old.buffer place count kind (numbers_behind bytes.now from))) page.new self.new }
    {
        let mut n = [0u64; 2048];
        let Ok(given) = console_names::numbers(bytes, from, &mut n) else {
            bad(page);
            return;
        };
        if !console_names::takes(count, given) {
            bad(page);
            return;
        }
        self.numbers_line(place, kind, &n[..given], page);
    }

    fn register_line(&mut self, bytes: &[u8], from: usize, page: &mut Page)
        ensures { Leaves (keeps_slot (slot_of self.old.slot)
            (register_line page.old self.old.memory self.old.buffer bytes.now from)) page.new self.new }
    {
        let mut out = [0u64; ANSWER];
        let status = console_register::registered(&mut self.memory, bytes, from, &mut out);
        said(page, Values::Numbers, status, &out);
    }

    fn slot_line(&mut self, bytes: &[u8], from: usize, page: &mut Page)
        ensures { Leaves (keeps_registry self.old.memory self.old.buffer
            (slot_ended (slot_line page.old (slot_of self.old.slot) bytes.now from))) page.new self.new }
    {
        self.slot = console_slot::slot_line(self.slot, bytes, from, page);
        end(page);
    }

    // The operation at a place among the names, with what stands behind its name.
    fn operate(&mut self, place: usize, bytes: &[u8], from: usize, page: &mut Page)
        ensures { Leaves
            (operate page.old self.old.memory self.old.buffer (slot_of self.old.slot) bytes.now place from)
            page.new self.new }
    {
        match console_names::row_at(place) {
            Row::Slot => self.slot_line(bytes, from, page),
            Row::Register => self.register_line(bytes, from, page),
            Row::Check => check_line(&self.memory, bytes, from, page),
            Row::Takes(count, kind) => self.behind_line(place, count, kind, bytes, from, page),
            Row::Unknown => bad(page),
        }
    }

    // The first word is the operation's name.
    #[tactic(auto, unfolding(crate::specs::Console::answered))]
    pub fn answered(&mut self, bytes: &[u8], page: &mut Page)
        ensures { Leaves
            (answered page.old self.old.memory self.old.buffer (slot_of self.old.slot) bytes.now)
            page.new self.new }
    {
        let word = console_words::next_word(bytes, 0);
        let place = console_names::operation(&bytes[word.start..word.stop]);
        self.operate(place, bytes, word.stop, page);
    }

    // A line is at its end, of which so many bytes came. An empty one, and one that begins with `#`, is passed over; of one
    // that is too long, only that is kept.
    #[tactic(auto, unfolding(crate::specs::Console::line_ended))]
    pub fn ended(&mut self, line: &[u8; LINE], filled: usize, page: &mut Page)
        ensures { Leaves
            (line_ended page.old self.old.memory self.old.buffer (slot_of self.old.slot) line.now filled)
            page.new self.new }
    {
        if filled == 0 {
            return;
        }
        if line[0] == b'#' {
            return;
        }
        if LINE < filled {
            bad(page);
            return;
        }
        self.answered(console_answer::front(line, filled), page);
    }
}

// Byte 10 ends an answer's line.
fn end(page: &mut Page)
    ensures { page.new ≡ line_end page.old }
{
    page.put(b"\n");
}

fn bad(page: &mut Page)
    ensures { page.new ≡ bad page.old }
{
    page.put(b"bad");
    end(page);
}

// What the registry answered.
fn said(page: &mut Page, values: Values, status: u64, out: &[u64; ANSWER])
    ensures { page.new ≡ line_end (spoken_on page.old values status (told_in out.now)) }
{
    console_show::spoken(page, values, status, out);
    end(page);
}

// The registry's text in a lent room, whose bytes stand behind the line.
fn text_in(m: &[u64; WORDS], room: &mut [u8], page: &mut Page)
    ensures { page.new ≡ text_on page.old m.now room.old }
{
    let mut out = [0u64; ANSWER];
    let status = host::vaskelbi_write_text(m, room, &mut out);
    said(page, Values::Numbers, status, &out);
    if status != 0 {
        return;
    }
    let length = out[1] as usize;
    page.put(console_answer::front(room, length));
}

// A room of so many bytes is lent, or of as many as there are.
fn text_line(m: &[u64; WORDS], size: u64, page: &mut Page)
    ensures { page.new ≡ text_on page.old m.now (lent_bytes size) }
{
    let mut room = [0u8; TEXT_ROOM];
    let most = TEXT_ROOM.min(size as usize);
    text_in(m, &mut room[..most], page);
}

// A start order of the ids behind the size.
fn plan_line(m: &[u64; WORDS], size: u64, l: &[u64], page: &mut Page)
    ensures { page.new ≡ line_end (planned_on page.old m.now (rest l.now) (lent_ids size)) }
{
    console_order::planned(m, size, console_names::rest(l), page);
    end(page);
}

fn check_line(m: &[u64; WORDS], bytes: &[u8], from: usize, page: &mut Page)
    ensures { page.new ≡ asked_line page.old m.now YesOrNo (checking (sets_in bytes.now from)) }
{
    let mut out = [0u64; ANSWER];
    let status = console_order::checked(m, bytes, from, &mut out);
    said(page, Values::YesOrNo, status, &out);
}
