// The console with what it keeps of its input, byte by byte.

ghost use Rattle.std.specs.Prelude.{◌≡◌};
ghost use Rattle.replay.specs.Fed.{kept_of, end_line, byte_fed, fed};
ghost use Rattle.replay.specs.Said.{Says, line_said, byte_said, said};

use crate::output::Output;
use crate::text::Due;
use console_answer::{Page, TEXT_ROOM};
use console_line::Console;
use console_words::LINE;
use std::io::Write;

// Of the line that has not ended its bytes and how many came; and the text's bytes with what is due of it.
#[derive(Drop)]
pub struct Replay {
    pub console: Console,
    pub line: [u8; LINE],
    pub filled: usize,
    pub text: [u8; TEXT_ROOM],
    pub due: Due,
}

impl Replay {
    // A line is at its end: it is carried out, and its answer written. One that awaits a text is followed by it.
    pub(crate) fn line_ended<W: Write>(&mut self, output: &mut Output<W>)
        ensures keeps { kept_of self.new ≡ end_line (kept_of self.old) }
        ensures says { Says W.contents output.old output.new (line_said (kept_of self.old)) }
    {
        let mut page = Page::empty();
        self.console.ended(&self.line, self.filled, &mut page);
        output.say(&page);
        let awaits = console_load::awaits(&self.line, self.filled);
        self.filled = 0;
        if let Some(awaited) = awaits {
            self.due = Due { awaited, came: 0 };
            self.whole_text(output);
        }
    }

    // One byte of the input: it is the text's that is due, or ends the line, or makes it longer.
    fn next_byte<W: Write>(&mut self, byte: u8, output: &mut Output<W>)
        ensures keeps { kept_of self.new ≡ byte_fed (kept_of self.old) byte }
        ensures says { Says W.contents output.old output.new (byte_said (kept_of self.old) byte) }
    {
        if self.due.came < self.due.awaited.length {
            self.text_byte(byte, output);
        } else if byte == b'\n' {
            self.line_ended(output);
        } else {
            self.filled = console_words::longer(&mut self.line, self.filled, byte);
        }
    }

    // The bytes of one part of the input.
    pub(crate) fn feed<W: Write>(&mut self, part: &[u8], output: &mut Output<W>)
        ensures keeps { kept_of self.new ≡ fed (kept_of self.old) part.now }
        ensures says { Says W.contents output.old output.new (said (kept_of self.old) part.now) }
    {
        for byte in part {
            self.next_byte(*byte, output);
        }
    }
}
