// Lines out: what the programs print, stored into a lent slice. Whatever stores at a place answers the place behind.
ghost use Rattle.std.specs.Prelude.{◌≡◌, ◌+◌, ◌*◌, ◌<◌, ◌≤◌, length};
ghost use Rattle.frame.specs.Tuples.{tuples_of};
ghost use Rattle.hexlines.specs.Lines.{digit, hex, line, decimal};
ghost use Rattle.hexlines.specs.Programs.{file_lines, bad_line, refused_line};
ghost use Rattle.hexlines.specs.inner.Printing.{Put, Form};

use crate::{LETTER, LINE_FEED};
use frame::passing;

// Stores a text at a place.
fn put(out: &mut [u8], at: usize, text: &[u8]) -> usize
    requires { at + length text.now ≤ length out.old }
    ensures { Put out.old at text.now result out.new }
{
    let behind = at + text.len();
    out[at..behind].copy_from_slice(text);
    behind
}

// Stores a number in decimal digits, of which it has at most twenty.
fn put_decimal(out: &mut [u8], at: usize, n: usize) -> usize
    requires { at + 20 ≤ length out.old }
    ensures { Put out.old at (decimal n) result out.new }
{
    if n < 10 {
        out[at] = b'0' + n as u8;
        return at + 1;
    }
    let to = put_decimal(out, at, n / 10);
    out[to] = b'0' + (n % 10) as u8;
    to + 1
}

// The character of a digit.
fn hex_digit(n: u8) -> u8
    requires { n < 16 }
    ensures { result ≡ digit n }
{
    if n < 10 { b'0' + n } else { LETTER + n }
}

// Stores a line of bytes in hexadecimal.
fn put_line(out: &mut [u8], at: usize, bytes: &[u8]) -> usize
    requires { at + 2 * length bytes.now + 1 ≤ length out.old }
    ensures { Put out.old at (line (hex bytes.now)) result out.new }
{
    for (i, byte) in bytes.iter().enumerate() {
        let to = at + 2 * i;
        out[to] = hex_digit(*byte / 16);
        out[to + 1] = hex_digit(*byte % 16);
    }
    let end = at + 2 * bytes.len();
    out[end] = LINE_FEED;
    end + 1
}

// Prints which line is bad: four characters, at most twenty digits and the line feed.
pub fn print_bad(out: &mut [u8], number: usize) -> usize
    requires { 25 ≤ length out.old }
    ensures { Put out.old 0 (bad_line number) result out.new }
{
    let mut to = put(out, 0, b"bad ");
    to = put_decimal(out, to, number);
    put(out, to, b"\n")
}

// Prints a refusal: nine characters, at most twenty digits for each number and the line feed.
pub fn print_refused(out: &mut [u8], code: u8, place: usize) -> usize
    requires { 50 ≤ length out.old }
    ensures { Put out.old 0 (refused_line code place) result out.new }
{
    let mut to = put(out, 0, b"refused ");
    to = put_decimal(out, to, usize::from(code));
    to = put(out, to, b" ");
    to = put_decimal(out, to, place);
    put(out, to, b"\n")
}

// Prints a normal form: the mark's line, then a tuple a line.
pub fn print_form(out: &mut [u8], form: &[u8]) -> usize
    requires form { Form form.now (tuples_of form.now) }
    requires form_in_bounds { length (file_lines (tuples_of form.now)) ≤ length out.old }
    ensures { Put out.old 0 (file_lines (tuples_of form.now)) result out.new }
{
    let mut to = put_line(out, 0, &form[..frame::MARKED]);
    for tuple in passing::behind_mark(form, false) {
        to = put_line(out, to, &form[tuple.at..tuple.at + tuple.whole]);
    }
    to
}
