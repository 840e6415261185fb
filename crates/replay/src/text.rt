// The text that a line awaits, byte by byte.

ghost use Rattle.std.specs.Prelude.{◌≡◌, ◌<◌};
ghost use Rattle.replay.specs.Fed.{kept_of, due_of, ended_text, whole, cut_off, longer_text, text_byte};
ghost use Rattle.replay.specs.Said.{Says, ended_said, whole_text_said, cut_off_said, text_byte_said};

use crate::line::Replay;
use crate::output::Output;
use console_answer::{Page, TEXT_ROOM};
use console_load::Awaited;
use std::io::Write;

// What is due of a text, and how many of its bytes came.
#[derive(Clone, Copy)]
pub struct Due {
    pub awaited: Awaited,
    pub came: u64,
}

impl Due {
    // No text is due.
    pub(crate) fn nothing() -> Due
        ensures { result ≡ due_of 0 0 0 }
    {
        Due {
            awaited: Awaited {
                domain: 0,
                length: 0,
            },
            came: 0,
        }
    }
}

impl Replay {
    // A text is at its end: it is loaded, and the answer written.
    fn text_ended<W: Write>(&mut self, output: &mut Output<W>)
        ensures keeps { kept_of self.new ≡ ended_text (kept_of self.old) }
        ensures says { Says W.contents output.old output.new (ended_said (kept_of self.old)) }
    {
        let mut page = Page::empty();
        let bytes = console_answer::front(&self.text, self.due.came as usize);
        console_load::loaded(&mut self.console.memory, self.due.awaited, bytes, &mut page);
        output.say(&page);
        self.due = Due::nothing();
    }

    // A text ends with its last byte,
    pub(crate) fn whole_text<W: Write>(&mut self, output: &mut Output<W>)
        ensures keeps { kept_of self.new ≡ whole (kept_of self.old) }
        ensures says { Says W.contents output.old output.new (whole_text_said (kept_of self.old)) }
    {
        if self.due.came < self.due.awaited.length {
            return;
        }
        self.text_ended(output);
    }

    // or with the input.
    pub(crate) fn cut_text<W: Write>(&mut self, output: &mut Output<W>)
        ensures keeps { kept_of self.new ≡ cut_off (kept_of self.old) }
        ensures says { Says W.contents output.old output.new (cut_off_said (kept_of self.old)) }
    {
        if self.due.came < self.due.awaited.length {
            self.text_ended(output);
        }
    }

    // One byte of a text.
    pub(crate) fn text_byte<W: Write>(&mut self, byte: u8, output: &mut Output<W>)
        requires { self.old.due.came < self.old.due.awaited.length }
        ensures keeps { kept_of self.new ≡ text_byte (kept_of self.old) byte }
        ensures says { Says W.contents output.old output.new (text_byte_said (kept_of self.old) byte) }
    {
        let due = self.due;
        longer_text(&mut self.text, due.came, byte);
        self.due.came = due.came + 1;
        self.whole_text(output);
    }
}

// Of a text that is too long the rest is passed over.
fn longer_text(text: &mut [u8; TEXT_ROOM], came: u64, byte: u8)
    ensures { text.new ≡ longer_text text.old came byte }
{
    let at = came as usize;
    if at < TEXT_ROOM {
        text[at] = byte;
    }
}
