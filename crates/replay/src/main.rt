// The console: operations from standard input, one a line, are carried out on one registry, and each is answered by a line.
#![tactic(auto)]

mod input;
mod line;
mod output;
mod text;

use output::Output;
use std::io;
use std::io::{Read, Write};

fn main(rt: HostRuntime) -> io::Result<()> {
    let mut output = Output {
        to: rt.stdout(),
        written: Ok(()),
    };
    input::run(&mut rt.stdin(), &mut output)
}

#[cfg(test)]
mod tests {
    use super::*;
    use input::run;
    use std::test::Fail;

    // Gives its bytes, and then fails.
    #[derive(Drop)]
    struct CutOff<'a>(&'a [u8]);

    impl Read for CutOff<'_> {
        fn read(&mut self, buf: &mut [u8]) -> io::Result<usize> {
            if self.0.is_empty() {
                return Err(io::Error::other("cut off"));
            }
            self.0.read(buf)
        }
    }

    // Fails once, at its second write.
    #[derive(Drop)]
    struct Stumbling {
        taken: Vec<u8>,
        writes: u8,
    }

    impl Write for Stumbling {
        fn write(&mut self, buf: &[u8]) -> io::Result<usize> {
            self.writes = self.writes.saturating_add(1);
            if self.writes == 2 {
                return Err(io::Error::other("full"));
            }
            self.taken.write(buf)
        }

        fn flush(&mut self) -> io::Result<()> {
            Ok(())
        }
    }

    #[test]
    fn answers_each_line(rt: HostRuntime) -> Result<(), Fail> {
        let mut output = Output {
            to: Vec::new(rt.alloc()),
            written: Ok(()),
        };
        run(
            &mut b"next\n# nothing\nshow 0\n\ncount".as_slice(),
            &mut output,
        )?;
        assert_eq!(rt; output.to.as_slice(), b"ok 0\nno 1\nok 0\n".as_slice());
        Ok(())
    }

    #[test]
    fn tells_a_failed_write_and_writes_no_more(rt: HostRuntime) {
        let mut output = Output {
            to: Stumbling {
                taken: Vec::new(rt.alloc()),
                writes: 0,
            },
            written: Ok(()),
        };
        assert!(rt; run(&mut b"next\ncount\nnext\n".as_slice(), &mut output).is_err());
        assert_eq!(rt; output.to.taken.as_slice(), b"ok 0\n".as_slice());
    }

    #[test]
    fn tells_a_failed_read_and_ends_no_line(rt: HostRuntime) {
        let mut output = Output {
            to: Vec::new(rt.alloc()),
            written: Ok(()),
        };
        assert!(rt; run(&mut CutOff(b"next\ncount"), &mut output).is_err());
        assert_eq!(rt; output.to.as_slice(), b"ok 0\n".as_slice());
    }
}
