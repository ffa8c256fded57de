// What a run writes: it stands in a lent buffer until that is full, or until the run waits for input.
ghost use Rattle.std.specs.Prelude.{◌≤◌, ◌+◌, length};

use std::io;
use std::io::Write;

// The first `filled` bytes of the buffer are still to be written.
#[derive(Drop)]
pub(crate) struct Output<'b, P> {
    to: &'b P,
    buffer: &'b mut [u8; 65536],
    filled: usize,
    ghost in_buffer: { filled ≤ 65536 },
}

// Where so many bytes stand, they are written before the next.
const FULL: usize = 65472;

// Puts bytes where there is room for them.
#[inline(always)]
fn put(buffer: &mut [u8; 65536], at: usize, bytes: &[u8])
    requires { at + length bytes.now ≤ 65536 }
{
    buffer[at..at + bytes.len()].copy_from_slice(bytes);
}

impl<'b, P: Print> Output<'b, P> {
    pub(crate) fn new(to: &'b P, buffer: &'b mut [u8; 65536]) -> Output<'b, P> {
        Output {
            to,
            buffer,
            filled: 0,
        }
    }

    // What cannot be written is not tried again.
    fn write_out(&mut self) -> io::Result<()> {
        let filled = self.filled;
        self.filled = 0;
        self.to.write_all(&self.buffer[..filled])
    }

    // This stands apart, so that what fits is copied in place.
    #[inline(never)]
    fn write_long(&mut self, bytes: &[u8]) -> io::Result<()> {
        self.write_out()?;
        if bytes.len() > 65536 {
            return self.to.write_all(bytes);
        }
        put(self.buffer, 0, bytes);
        self.filled = bytes.len();
        Ok(())
    }
}

impl<P: Print> Write for Output<'_, P> {
    #[inline(always)]
    fn write(&mut self, bytes: &[u8]) -> io::Result<usize> {
        self.write_all(bytes)?;
        Ok(bytes.len())
    }

    fn flush(&mut self) -> io::Result<()> {
        self.write_out()
    }

    #[inline(always)]
    fn write_all(&mut self, bytes: &[u8]) -> io::Result<()> {
        let at = self.filled;
        if at >= FULL || bytes.len() > 65536 - at {
            return self.write_long(bytes);
        }
        put(self.buffer, at, bytes);
        self.filled = at + bytes.len();
        Ok(())
    }
}
