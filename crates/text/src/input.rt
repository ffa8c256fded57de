// Lines of standard input, as parts of a lent buffer, each read as the call that it makes.
ghost use Rattle.std.specs.Prelude.{◌≡◌, ◌↔◌, ◌≤◌, ◌<◌, ◌+◌, min, true, false, Ok, None, IsNone, IfOk, IfSome, OnErr};
ghost use Rattle.std.specs.Option.{ForSome};
ghost use Rattle.calls.specs.declared.verb.Verb.TheVariants.{Malformed};
ghost use Rattle.calls.specs.Calls.{plain_call};

use crate::owned_input::OwnedInput;
use calls::call;
use calls::call::Call;
use calls::verb::Verb;
use reasons::Reason;
use std::alloc::Global;
use std::io;
use std::io::{ErrorKind, Read};

// A line without its newline, and its number; no text where it is too long.
#[derive(Clone, Copy)]
pub struct Line<'a> {
    pub number: u64,
    pub text: Option<&'a [u8]>,
}

impl<'a> Line<'a> {
    // The line's bytes; none where it is too long.
    pub fn bytes(self) -> &'a [u8] {
        self.text.unwrap_or(b"")
    }

    pub fn first_word(self) -> &'a [u8] {
        self.bytes()
            .split(|b| *b == b' ')
            .find(|w| !w.is_empty())
            .unwrap_or(b"")
    }

    // Is this a comment, or a line without a word? It is passed over.
    pub fn is_blank(self) -> bool
        ensures { IsNone self.entry.text → result ≡ false }
    {
        self.text.is_some_and(|line| line.starts_with(b"#") || line.iter().all(|b| *b == b' '))
    }

    // The call that the line makes, for a program whose log has so many rows.
    #[tactic(auto, unfolding(calls::specs::Calls::plain_call))]
    pub fn call(self, rows: usize) -> Call
        ensures too_long { IsNone self.entry.text → result ≡ plain_call Malformed }
        ensures in_log { result.log ≤ rows }
    {
        let Some(line) = self.text else {
            return call::plain(Verb::Malformed);
        };
        if line.starts_with(b"#") {
            return call::plain(Verb::Blank);
        }
        let c = call::of_line(line);
        if c.log > rows as u64 {
            return call::plain(Verb::Malformed);
        }
        c
    }

    // Why the line is malformed, for a program whose log has so many rows.
    pub fn reason(self, rows: usize) -> Reason {
        match self.text {
            Some(line) => reasons::of_line(line, rows as u64),
            None => reasons::too_long(),
        }
    }
}

// The most bytes that a line may have, its newline among them.
pub(crate) const ROOM: usize = 65536;

// Where a reader of lines stands in its buffer: the first `filled` bytes were read, and those from
// `next` on are of later lines, the first of which ends before `end`, where its end was read. `number`
// says how many lines were read.
#[derive(Clone, Copy)]
pub struct Input {
    filled: usize,
    next: usize,
    end: Option<usize>,
    number: u64,
    // The line is too long and its bytes are passed over: no value goes with that.
    skips: bool,
    // The input's end was read: the lines behind it are none, and no value goes with that.
    has_ended: bool,
    ghost in_buffer: { filled ≤ 65536 },
    ghost ordered: { next ≤ filled },
    ghost found: { ForSome end (λ at. (next ≤ at) × (at ≤ filled)) },
}

impl Input {
    // Where a reader stands before the first line.
    pub fn start() -> Input
        ensures ended { result.has_ended ≡ false }
        ensures number { result.number ≡ 0 }
    {
        Input {
            filled: 0,
            next: 0,
            end: None,
            number: 0,
            skips: false,
            has_ended: false,
        }
    }

    // A reader of lines that keeps its buffers itself, for a caller that lends none.
    pub fn new<R: Read + Drop>(alloc: Global, reader: R) -> io::Result<OwnedInput<R>>
        ensures { IfOk result (λ input. (input.has_ended ≡ false) × (input.number ≡ 0)) }
    {
        OwnedInput::new(alloc, reader)
    }
}

// A reader of lines, and the lent buffer that they are parts of.
#[derive(Drop)]
pub struct Lines<'b, R> {
    reader: R,
    buffer: &'b mut [u8; 65536],
    input: Input,
}

// Where the first newline from `from` to before `to` is.
fn newline_in(buffer: &[u8; 65536], from: usize, to: usize) -> Option<usize>
    requires { (from ≤ to) × (to ≤ 65536) }
    ensures { IfSome result (λ at. (from ≤ at) × (at < to)) }
{
    let at = buffer[from..to].iter().position(|b| *b == b'\n')?;
    Some(from + at)
}

// One read behind the first `at` bytes, tried again where a signal interrupts it.
fn read_behind(reader: &mut impl Read, buffer: &mut [u8; 65536], at: usize) -> io::Result<usize>
    requires { at ≤ 65536 }
    ensures { IfOk result (λ count. at + count ≤ 65536) }
{
    let room = &mut buffer[at..];
    for _ in 0..u64::MAX {
        match reader.read(room) {
            Err(why) if why.kind() == ErrorKind::Interrupted => {}
            outcome => return outcome,
        }
    }
    reader.read(room)
}

impl<'b, R: Read + Drop> Lines<'b, R> {
    pub fn new(reader: R, buffer: &'b mut [u8; 65536]) -> Lines<'b, R>
        ensures { (result.input.has_ended ≡ false) × (result.input.number ≡ 0) }
    {
        Lines {
            reader,
            buffer,
            input: Input::start(),
        }
    }

    // Does the next line have to be waited for?
    pub fn waits(&self) -> bool
        ensures { result ≡ true ↔ IsNone self.now.input.end × (self.now.input.has_ended ≡ false) }
    {
        self.input.end.is_none() && !self.input.has_ended
    }

    // Moves the bytes of the line that was begun to the front, and says how many they are. A buffer
    // full of one line keeps none: what is left of the line is passed over.
    fn make_room(&mut self) -> usize
        requires { IsNone self.old.input.end }
        ensures room { result < 65536 }
        ensures filled { (self.new.input.filled ≡ result) × (self.new.input.next ≡ 0) }
        ensures end { IsNone self.new.input.end }
        ensures number { self.new.input.number ≡ self.old.input.number }
        ensures ended { self.new.input.has_ended ≡ self.old.input.has_ended }
    {
        let x = self.input;
        let skips = x.skips || x.filled - x.next == ROOM;
        let kept = if skips { 0 } else { x.filled - x.next };
        self.buffer.copy_within(x.next..x.next + kept, 0);
        self.input = Input {
            filled: kept,
            next: 0,
            end: None,
            number: x.number,
            skips,
            has_ended: x.has_ended,
        };
        kept
    }

    // Reads once, where the next line has to be waited for.
    pub fn read_on(&mut self) -> io::Result<()>
        ensures number { self.new.input.number ≡ self.old.input.number }
        ensures ended { self.old.input.has_ended ≡ true → self.new.input.has_ended ≡ true }
        ensures err { OnErr result (self.new.input.has_ended ≡ self.old.input.has_ended) }
    {
        if !self.waits() {
            return Ok(());
        }
        let kept = self.make_room();
        let count = read_behind(&mut self.reader, self.buffer, kept)?;
        let filled = kept + count;
        let is_last = count == 0 && (kept > 0 || self.input.skips);
        self.input.filled = filled;
        self.input.end = if is_last {
            Some(filled)
        } else {
            newline_in(self.buffer, kept, filled)
        };
        self.input.has_ended = count == 0 && !is_last;
        Ok(())
    }

    // Reads until the next line's end was read, or the input's.
    fn wait(&mut self) -> io::Result<()>
        ensures number { self.new.input.number ≡ self.old.input.number }
    {
        // A proved loop has to end, so it counts reads up to a number that no input reaches.
        for _ in 0..u64::MAX {
            if !self.waits() {
                break;
            }
            self.read_on()?;
        }
        Ok(())
    }

    // Reads the next line; none once the input has ended. Of a line that is too long the rest is
    // passed over.
    pub fn next_line(&mut self) -> io::Result<Option<Line<'_>>>
        ensures ended { self.old.input.has_ended ≡ true → result ≡ Ok None }
        ensures number { IfOk result (λ found. IfSome found (λ line. line.number ≡ min (self.old.input.number + 1) 18446744073709551615)) }
    {
        if self.input.has_ended {
            return Ok(None);
        }
        self.wait()?;
        let x = self.input;
        let Some(end) = x.end else {
            return Ok(None);
        };
        let has_newline = end < x.filled;
        let next = if has_newline { end + 1 } else { end };
        let number = x.number.saturating_add(1);
        self.input = Input {
            filled: x.filled,
            next,
            end: newline_in(self.buffer, next, x.filled),
            number,
            skips: false,
            has_ended: !has_newline,
        };
        let buffer = &*self.buffer;
        let text = if x.skips {
            None
        } else {
            Some(&buffer[x.next..end])
        };
        Ok(Some(Line { number, text }))
    }
}

#[cfg(test)]
mod tests {
    use super::*;

    // A line, one that is too long, and one without its newline; then the input has ended.
    #[test]
    fn reads_lines(rt: HostRuntime) -> io::Result<()> {
        let mut text = [b'x'; 65550];
        text[..6].copy_from_slice(b"quiet\n");
        text[65545..].copy_from_slice(b"\nfull");
        let mut buffer = [0; 65536];
        let mut input = Lines::new(text.as_slice(), &mut buffer);
        for (number, word) in [
            (1, Some(b"quiet".as_slice())),
            (2, None),
            (3, Some(b"full")),
        ] {
            let line = input.next_line()?;
            assert_eq!(rt; line.map(|l| l.number), Some(number));
            assert_eq!(rt; line.and_then(|l| l.text), word);
        }
        assert!(rt; input.next_line()?.is_none());
        Ok(())
    }
}
