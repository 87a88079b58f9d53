// Makes the whole printout of a fit file, from the file's bytes.
#![tactic(auto)]

ghost use Rattle.std.specs.Prelude.{◌≡◌, ◌+◌, ◌≤◌, true, List, [], ◌∷◌, ◌++◌, take, is_ok, vec_len, vec_capacity};
ghost use Rattle.std.specs.List.{All};
ghost use Rattle.printout.specs.Printouts.{Fits64, bytes_of, text_of};
ghost use Rattle.report.specs.Printed.{lines_of, printed, grown};

use printout::{LINE_ROOM, Line};
use std::alloc::AllocError;

// The bytes of an input that the reader gets, at the most.
pub const MOST: usize = 65_536;

// The bytes that every printout fits into: a line for the book, 16 offers and 8 columns.
pub const ROOM: usize = 25 * LINE_ROOM;

// The line that a printout begins with: the counts of the book, or why the file is refused.
fn heading(bytes: &[u8]) -> Line
    ensures { lines_of bytes.now ≡ result ∷ [] }
{
    match fitfile::header(bytes) {
        Ok(header) => Line::Book {
            rows: header.rows as u8,
            columns: header.columns as u8,
        },
        Err(refusal) => Line::FileRefused {
            number: refusal.into(),
        },
    }
}

// Adds a line, made in a buffer of its own: a line is written into a buffer with room, and `write!` to the text may fail.
fn add_line(text: &mut Vec<u8>, line: Line)
    requires { vec_len text.old + 96 ≤ vec_capacity text.old }
    ensures { text.new.items ≡ text.old.items ++ bytes_of line }
{
    let mut buffer = [0; LINE_ROOM];
    let length = line.write_to(&mut buffer).unwrap();
    text.extend_from_slice(&buffer[..length]).unwrap();
}

// Adds the printout of an input to a text, or nothing where there is no memory for it.
pub fn print(text: &mut Vec<u8>, input: &[u8]) -> Result<(), AllocError>
    ensures text { text.new.items ≡ grown text.old.items (printed (take 65536 input.now)) result }
    ensures succeeds { vec_len text.old + 2400 ≤ vec_capacity text.old → is_ok result ≡ true }
    ensures one_reading { (ls : List Line) → All Fits64 ls → text_of ls ≡ printed (take 65536 input.now) → ls ≡ lines_of (take 65536 input.now) }
{
    text.reserve(ROOM)?;
    let front = &input[..MOST.min(input.len())];
    add_line(text, heading(front));
    Ok(())
}
