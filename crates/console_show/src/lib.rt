// The console's answer lines: of an operation, of the buffer and of a plugin.
#![tactic(auto)]

ghost use Rattle.std.specs.Prelude.{◌≡◌};
ghost use Rattle.console_answer.specs.Pages.{put_on, numbers_on};
ghost use Rattle.console_answer.specs.Answers.{ok_word, told_in};
ghost use Rattle.console_show.specs.Spoken.{spoken_on};
ghost use Rattle.console_show.specs.Buffered.{between};
ghost use Rattle.console_show.specs.Shown.{Registered, life_on, root_on, shown_on};

use console_answer::Page;
use console_names::{BAD, BUFFER_ROOM, Values};
use host_answers::ANSWER;
use memory::WORDS;

// The operation's row says what the values of an acceptance are.
#[tactic(auto, unfolding(crate::specs::Spoken::spoken_on))]
pub fn spoken(page: &mut Page, values: Values, status: u64, out: &[u64; ANSWER])
    ensures { page.new ≡ spoken_on page.old values status (told_in out.now) }
{
    if status == BAD {
        page.put(b"bad");
        return;
    }
    match values {
        Values::None | Values::Numbers => page.told(status, out),
        Values::NumbersOrNone => page.or_none(status, out),
        Values::YesOrNo => page.yes_no(status, out),
    }
}

// The buffer's numbers from one place up to another.
pub fn buffered(buffer: &[u64; BUFFER_ROOM], from: u64, to: u64, page: &mut Page)
    ensures { page.new ≡ numbers_on (put_on page.old ok_word) (between from to buffer.now) }
{
    page.put(b"ok");
    if to <= from {
        return;
    }
    let some = memory_lists::some_words(buffer, from as usize, (to - from) as usize);
    page.numbers(some);
}

// Phase, retired mark, generation, revision and payload.
fn life(m: &[u64; WORDS], id: u64, page: &mut Page)
    requires { Registered m.now id }
    ensures { page.new ≡ life_on page.old m.now id }
{
    let mut out = [0u64; ANSWER];
    host::vaskelbi_phase(m, id, &mut out);
    page.answer(&out);
    host::vaskelbi_retired(m, id, &mut out);
    page.answer(&out);
    host::vaskelbi_generation(m, id, &mut out);
    page.answer(&out);
    host::vaskelbi_revision(m, id, &mut out);
    page.answer(&out);
    host::vaskelbi_payload(m, id, &mut out);
    page.answer(&out);
}

// Root and, where none is queued, the word for it.
fn root(m: &[u64; WORDS], id: u64, page: &mut Page)
    requires { Registered m.now id }
    ensures { page.new ≡ root_on page.old m.now id }
{
    let mut out = [0u64; ANSWER];
    host::vaskelbi_root(m, id, &mut out);
    page.answer(&out);
    let told = out[0];
    let unqueued = told == 1;
    if unqueued {
        page.put(b" none");
    }
}

// All of a plugin's fields, or why there is no such plugin.
pub fn shown(m: &[u64; WORDS], id: u64, page: &mut Page)
    ensures { page.new ≡ shown_on page.old m.now id }
{
    let mut out = [0u64; ANSWER];
    let status = host::vaskelbi_parent(m, id, &mut out);
    if status != 0 {
        page.told(status, &out);
        return;
    }
    page.put(b"ok");
    page.answer_or_none(&out);
    life(m, id, page);
    root(m, id, page);
    host::vaskelbi_anchor(m, id, &mut out);
    page.answer(&out);
}
