// Reads quote lines on standard input, and writes the text of the table that they are, or the number
// that they draw.
#![tactic(auto)]

ghost use Rattle.std.specs.Prelude.{◌<◌, ◌≡◌, ◌≤◌, length, take};
ghost use Rattle.lists.specs.Lists.{over};
ghost use Rattle.quotes.specs.Printed.{number_line, printed_of};

use numerals::spelled::decimal_text;
use std::io;
use std::io::Read;
use vendor::on_arrays::{read_on, write_on};

// Puts a number on a line at the start of `out`, and answers how many bytes that is. What is written
// stands in the buffer that is lent, as the rows' text does: this program uses no heap.
fn put_number(n: u64, out: &mut [u8]) -> usize
    requires { 20 < length out.old }
    ensures { (result ≡ length (number_line n)) × (out.new ≡ over (number_line n) out.old) }
{
    let text = decimal_text(n);
    let count = text.count;
    out[..count].copy_from_slice(&text.bytes[..count]);
    out[count] = b'\n';
    count + 1
}

// Puts what is written for an input at the start of `out`, and answers how many bytes that is.
fn printed(input: &[u8], out: &mut [u8]) -> usize
    requires { length out.old ≡ 15104 }
    ensures prefix_len { (result ≤ length out.new) × (result ≡ length (take result out.new)) }
    ensures out_after { take result out.new ≡ printed_of input.now }
{
    let x = read_on(input, 256);
    match x.answer {
        // Rows that were read draw nothing where they are written.
        Ok(n) => write_on(&x.rows, n, out).unwrap_or(0),
        Err(fault) => put_number(fault.number() as u64, out),
    }
}

// Reads until `buf` is full or the input ends, and answers how many bytes came. A read that fails
// counts as the end. No method of the library says how many bytes came before that, so the loop counts
// them; `read_to_end` needs a `Vec`, and this program uses no heap.
fn read_full(reader: &mut impl Read, buf: &mut [u8]) -> usize
    ensures { result ≤ length buf.new }
{
    let mut done = 0;
    while done < buf.len() {
        let n = reader.read(&mut buf[done..]).unwrap_or(0);
        if n == 0 {
            break;
        }
        done += n;
    }
    done
}

fn main(rt: HostRuntime) -> io::Result<()> {
    // One byte more than an input may have, so that a longer one is told.
    let mut input = [0; 65537];
    let n = read_full(&mut rt.stdin(), &mut input);
    let mut out = [0; 15104];
    let k = printed(&input[..n], &mut out);
    Print::write_all(&rt, &out[..k])
}
