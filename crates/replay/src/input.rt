// The whole input, in parts, from its first byte to its end.

ghost use Rattle.std.specs.Prelude.{◌≡◌, IfOk, OnOk};
ghost use Rattle.replay.specs.Fed.{kept_of, input_ended};
ghost use Rattle.replay.specs.Said.{Says, end_said, start, FeedsSome, Answers};

use crate::line::Replay;
use crate::output::Output;
use crate::text::Due;
use console_answer::TEXT_ROOM;
use console_line::Console;
use console_names::BUFFER_ROOM;
use console_words::LINE;
use memory::WORDS;
use slot_child::Slot;
use std::io;
use std::io::{Read, Write};

// As many bytes as one read takes at most.
const PART: usize = 65536;

impl Replay {
    // Before the first byte: a fresh registry of domain 0, and a Pending slot.
    fn begun() -> Replay
        ensures { kept_of result ≡ start }
    {
        let mut memory = [0u64; WORDS];
        host::vaskelbi_open(&mut memory, 0, 0);
        Replay {
            console: Console {
                memory,
                buffer: [0; BUFFER_ROOM],
                slot: Slot::pending(0, 0, 0),
            },
            line: [0; LINE],
            filled: 0,
            text: [0; TEXT_ROOM],
            due: Due::nothing(),
        }
    }

    // One read, and whether there is more; of nothing, at the input's end.
    fn feed_some<R: Read, W: Write>(
        &mut self,
        input: &mut R,
        output: &mut Output<W>,
    ) -> io::Result<bool>
        ensures { IfOk result (λ more. FeedsSome R.remaining W.contents input.old input.new output.old output.new
            (kept_of self.old) (kept_of self.new) more) }
    {
        let mut part = [0u8; PART];
        let n = input.read(&mut part)?;
        if n == 0 {
            return Ok(false);
        }
        self.feed(&part[..n], output);
        Ok(true)
    }

    // The input is at its end: the text that is due is what there is of it, and else the last line ends.
    fn finished<W: Write>(&mut self, output: &mut Output<W>)
        ensures keeps { kept_of self.new ≡ input_ended (kept_of self.old) }
        ensures says { Says W.contents output.old output.new (end_said (kept_of self.old)) }
    {
        let line_is_last = self.due.awaited.length <= self.due.came;
        if line_is_last {
            self.line_ended(output);
        }
        self.cut_text(output);
    }
}

// From the first byte of the input to its end: what is written is the answers to what is read.
// A proved loop has to end, and nothing says that the input does: the turns count down from a number that no run uses up.
pub fn run<R: Read, W: Write>(input: &mut R, output: &mut Output<W>) -> io::Result<()>
    ensures { OnOk result (Answers (R.remaining input.old) (R.remaining input.new)
        (W.contents output.old.to) (W.contents output.new.to)) }
{
    let mut replay = Replay::begun();
    let mut more = true;
    let mut turns = u64::MAX;
    while turns > 0 && more {
        more = replay.feed_some(input, output)?;
        output.written?;
        turns -= 1;
    }
    replay.finished(output);
    output.written
}
