ghost use Rattle.std.specs.Prelude.{◌≡◌, ◌+◌, ◌≤◌, ◌++◌, decimal};
ghost use Rattle.arrayvec.specs.ArrayString.{array_string_len};
ghost use Rattle.script.specs.Lines.{first_line_bytes, refused_line_bytes};
ghost use Rattle.script.specs.Pasting.{Written};

use crate::room::has_room;
use arrayvec::ArrayString;
use chain::fault::FloorFault;
use itoa::Buffer;

// How many bytes the longest line can have: three numbers and what stands between them.
pub const LONGEST: usize = 80;

// Adds a number in decimal.
fn push_number(line: &mut ArrayString<LONGEST>, number: usize)
    requires { array_string_len line.old + 20 ≤ 80 }
    ensures bytes { line.new.bytes ≡ line.old.bytes ++ decimal number }
    ensures len { array_string_len line.new ≤ array_string_len line.old + 20 }
{
    line.push_str(Buffer::new().format(number));
}

// The first line of a script.
// Kept as it is: with `write!` into the string it stayed open that no write fails, so each piece is pushed.
fn make_first_line(height: usize, width: usize, length: usize) -> ArrayString<LONGEST>
    ensures { result.bytes ≡ first_line_bytes height width length }
{
    let mut line = ArrayString::new();
    line.push_str("LFS 1 ");
    push_number(&mut line, height);
    line.push_str(" ");
    push_number(&mut line, width);
    line.push_str(" ");
    push_number(&mut line, length);
    line.push_str("\n");
    line
}

// The line of a refusal.
// Kept as it is: the refusals of reading, of decks and of the floor have nothing but their numbers in common.
pub fn make_refused_line(number: u8) -> ArrayString<LONGEST>
    ensures { result.bytes ≡ refused_line_bytes number }
{
    let mut line = ArrayString::new();
    line.push_str("refused ");
    push_number(&mut line, usize::from(number));
    line.push_str("\n");
    line
}

// Writes a line into the buffer, from place `at` on, and answers how many bytes it is.
fn write_line(line: &ArrayString<LONGEST>, out: &mut [u8], at: usize) -> Result<usize, FloorFault>
    ensures { Written line.now.bytes out.old at result out.new }
{
    let bytes = line.as_str().as_bytes();
    let count = bytes.len();
    if !has_room(out, at, count) {
        return Err(FloorFault::NoRoom);
    }
    out[at..at + count].copy_from_slice(bytes);
    Ok(count)
}

// Writes the first line of a script from place `at` on, and answers how many bytes it is.
// Kept as it is: the caller lends its buffer and a place in it, and is answered a refusal where there is no room.
pub fn first_line(
    out: &mut [u8],
    at: usize,
    height: usize,
    width: usize,
    length: usize,
) -> Result<usize, FloorFault>
    ensures { Written (first_line_bytes height width length) out.old at result out.new }
{
    write_line(&make_first_line(height, width, length), out, at)
}

// Writes the line of a refusal from place `at` on, and answers how many bytes it is.
// Kept as it is: the caller lends its buffer and a place in it, and a refusal comes as its number, as above.
pub fn refused_line(out: &mut [u8], at: usize, number: u8) -> Result<usize, FloorFault>
    ensures { Written (refused_line_bytes number) out.old at result out.new }
{
    write_line(&make_refused_line(number), out, at)
}
