// Where the answers go.

ghost use Rattle.replay.specs.Said.{Says, page_said};

use console_answer::Page;
use std::io;
use std::io::Write;

// The first write that fails is kept, and nothing is written after it.
#[derive(Drop)]
pub struct Output<W> {
    pub to: W,
    pub written: io::Result<()>,
}

impl<W: Write> Output<W> {
    // The whole answer, in one piece; none to a line that is passed over.
    pub(crate) fn say(&mut self, page: &Page)
        ensures { Says W.contents self.old self.new (page_said page.now) }
    {
        if 0 < page.place && self.written.is_ok() {
            self.written = self.to.write_all(page.written());
        }
    }
}
