// Lines of an input whose reader has its buffers on the heap, for a caller that lends none.
ghost use Rattle.std.specs.Prelude.{◌≡◌, ◌+◌, ◌==◌, not, min, true, false, Ok, None, IfOk, IfSome};
ghost use Rattle.std.specs.List.{list_any};
ghost use Rattle.std.specs.Io.Buffered.{reader_buffer};

use crate::input::{Line, ROOM};
use std::alloc::Global;
use std::io;
use std::io::{BufRead, BufReader, Read};

// A reader of lines. `line` is the one that was read last, and `number` says how many were. The input has
// ended once a line that is not too long lacks its newline; at another end each call reads again.
#[derive(Drop)]
pub struct OwnedInput<R> {
    reader: BufReader<R>,
    line: Vec<u8>,
    number: u64,
    // The lines behind are none, and no value goes with that.
    has_ended: bool,
}

impl<R: Read + Drop> OwnedInput<R> {
    pub fn new(alloc: Global, reader: R) -> io::Result<OwnedInput<R>>
        ensures { IfOk result (λ input. (input.has_ended ≡ false) × (input.number ≡ 0)) }
    {
        Ok(OwnedInput {
            reader: BufReader::with_capacity(alloc, ROOM, reader)?,
            line: Vec::with_capacity(alloc, ROOM)?,
            number: 0,
            has_ended: false,
        })
    }

    // Does the next line have to be waited for?
    pub fn waits(&self) -> bool
        ensures { list_any (λ byte. byte == 10) (reader_buffer self.now.reader) ≡ not result }
    {
        !self.reader.buffer().contains(&b'\n')
    }

    // Reads the next line; none once the input has ended. Of a line that is too long the rest is
    // passed over.
    pub fn next_line(&mut self) -> io::Result<Option<Line<'_>>>
        ensures ended { self.old.has_ended ≡ true → result ≡ Ok None }
        ensures number { IfOk result (λ found. IfSome found (λ line. line.number ≡ min (self.old.number + 1) 18446744073709551615)) }
    {
        if self.has_ended {
            return Ok(None);
        }
        self.line.clear();
        self.reader
            .by_ref()
            .take(ROOM as u64)
            .read_until(b'\n', &mut self.line)?;
        if self.line.is_empty() {
            return Ok(None);
        }
        self.number = self.number.saturating_add(1);
        let number = self.number;
        let has_newline = self.line.ends_with(b"\n");
        if !has_newline && self.line.len() == ROOM {
            self.reader.skip_until(b'\n')?;
            return Ok(Some(Line { number, text: None }));
        }
        self.has_ended = !has_newline;
        let line = self.line.as_slice();
        let text = line.strip_suffix(b"\n").unwrap_or(line);
        Ok(Some(Line {
            number,
            text: Some(text),
        }))
    }
}

#[cfg(test)]
mod tests {
    use super::*;
    use crate::input::Input;

    // A line, one that is too long, and one without its newline; then the input has ended.
    #[test]
    fn reads_owned_lines(rt: HostRuntime) -> io::Result<()> {
        let mut text = [b'x'; 65550];
        text[..6].copy_from_slice(b"quiet\n");
        text[65545..].copy_from_slice(b"\nfull");
        let mut input = Input::new(rt.alloc(), text.as_slice())?;
        for (number, word) in [
            (1, Some(b"quiet".as_slice())),
            (2, None),
            (3, Some(b"full")),
        ] {
            let line = input.next_line()?;
            assert_eq!(rt; line.map(|l| l.number), Some(number));
            assert_eq!(rt; line.and_then(|l| l.text), word);
        }
        assert!(rt; input.next_line()?.is_none());
        Ok(())
    }

    // Of two lines that are read at once the second is not waited for.
    #[test]
    fn waits_for_no_line_that_was_read(rt: HostRuntime) -> io::Result<()> {
        let mut input = Input::new(rt.alloc(), b"quiet\nfull\n".as_slice())?;
        assert!(rt; input.waits());
        input.next_line()?;
        assert!(rt; !input.waits());
        input.next_line()?;
        assert!(rt; input.waits());
        Ok(())
    }
}
