#![tactic(auto)]

ghost use Rattle.streams.specs.Counted.{Counted, Taken};

use std::io::{self, Read, Write};

// Reads an input until it ends or the buffer is full. A read that fails is told, and not taken for the end. Rules out a count of more
// bytes than the buffer has; and of an input whose bytes are known, a buffer that begins with others, and a count that stops before
// the buffer's end where the input goes on. The loop goes on by what each read gave: `read_exact` would call a short input an error, and
// `read_to_end` reads into the heap without a limit.
pub fn read_input<R: Read>(reader: &mut R, buffer: &mut [u8]) -> io::Result<usize>
    ensures counted { Counted result buffer.new }
    ensures taken { Taken result (R.remaining reader.old) (R.remaining reader.new) buffer.new }
{
    let mut at: usize = 0;
    while at < buffer.len() {
        let got = reader.read(&mut buffer[at..])?;
        if got == 0 {
            break;
        }
        at += got;
    }
    Ok(at)
}

// One line to a writer, standard error as a rule, where nothing is left to do if that fails too.
pub fn tell<W: Write>(writer: &mut W, line: &[u8]) {
    let _ = writer.write_all(line);
}

#[cfg(test)]
mod tests {
    use super::*;

    // An input that gives a byte at each read, and fails where none is left.
    #[derive(Drop)]
    struct Broken {
        left: u8,
    }

    impl Read for Broken {
        fn read(&mut self, buf: &mut [u8]) -> io::Result<usize> {
            if self.left == 0 {
                return Err(io::Error::other("broken"));
            }
            if buf.is_empty() {
                return Ok(0);
            }
            buf[0] = self.left;
            self.left -= 1;
            Ok(1)
        }
    }

    #[test]
    fn reads_to_the_end_or_until_full(rt: HostRuntime) {
        for (input, want) in [("", 0), ("abc", 3), ("abcd", 4), ("abcde", 4)] {
            let mut buffer = [0u8; 4];
            let mut reader = input.as_bytes();
            assert_eq!(rt;
                read_input(&mut reader, &mut buffer).ok(),
                Some(want),
                "of {input}"
            );
        }
    }

    #[test]
    fn a_failed_read_is_no_end(rt: HostRuntime) {
        for (left, want) in [(0, None), (3, None), (4, Some(4)), (5, Some(4))] {
            let mut buffer = [0u8; 4];
            let mut reader = Broken { left };
            assert_eq!(rt;
                read_input(&mut reader, &mut buffer).ok(),
                want,
                "of {left}"
            );
        }
    }
}
