// A line by what it says, its text, and the line written into a buffer.
ghost use Rattle.std.specs.Prelude.{◌≡◌, Some};
ghost use Rattle.printout.specs.Lines.{answered, written};
ghost use Rattle.printout.specs.Printouts.{bytes_of};

use crate::interval::{half_width_of, middle_of};
use crate::refusal::Refusal;
use crate::words::Word::{Count, Name, Signed, Small};
use crate::words::{LINE_ROOM, Text, joined};
use std::fmt;

// A line of a printout. Offers and columns are numbered from 1 by the caller.
// A refusal is given by its number, since this crate knows none of those that are printed.
#[derive(Clone, Copy, PartialEq, Eq, Debug)]
pub enum Line {
    // The numbers of rows and columns.
    Book { rows: u8, columns: u8 },
    // An offer that is granted, and its alpha.
    Granted { offer: u8, alpha: u64 },
    // An offer that is refused, and the number of the refusal.
    Refused { offer: u8, number: u8 },
    // The ends of a column's interval, two plain numbers, as they are printed.
    // After them come its middle rounded down, and half its width rounded toward zero.
    Column { column: u8, low: i64, high: i64 },
    // A column without an interval.
    NoInterval { column: u8 },
    // The number of the refusal of a whole file.
    FileRefused { number: u8 },
}

impl Line {
    // The text of the line.
    fn text(self) -> Text
        ensures { result.bytes ≡ bytes_of self }
    {
        match self {
            Line::Book { rows, columns } => joined("book", &[Small(rows), Small(columns)]),
            Line::Granted { offer, alpha } => joined(
                "offer",
                &[Small(offer), Name("granted"), Count(alpha)],
            ),
            Line::Refused { offer, number } => joined(
                "offer",
                &[Small(offer), Name("refused"), Small(number)],
            ),
            Line::Column { column, low, high } => {
                let (middle, half_width) = (middle_of(low, high), half_width_of(low, high));
                joined(
                    "column",
                    &[
                        Small(column),
                        Signed(low),
                        Signed(high),
                        Signed(middle),
                        Signed(half_width),
                    ],
                )
            }
            Line::NoInterval { column } => joined("column", &[Small(column), Name("none")]),
            Line::FileRefused { number } => joined("file", &[Name("refused"), Small(number)]),
        }
    }

    // Writes the line to the start of the buffer and answers its length, or refuses a buffer of fewer than 96 bytes.
    // The bytes after the line keep their contents.
    pub fn write_to(self, buffer: &mut [u8]) -> Result<usize, Refusal>
        ensures answer { result ≡ answered (bytes_of self) buffer.old }
        ensures buffer { buffer.new ≡ written (bytes_of self) buffer.old }
    {
        if buffer.len() < LINE_ROOM {
            return Err(Refusal::ShortBuffer);
        }
        let text = self.text();
        let bytes = text.as_str().as_bytes();
        buffer[..bytes.len()].copy_from_slice(bytes);
        Ok(bytes.len())
    }
}

impl fmt::Display for Line {
    ghost output = { λ line. Some (bytes_of line) };

    fn fmt<W: fmt::Write>(&self, f: &mut fmt::Formatter<W>) -> fmt::Result {
        f.write_str(self.text().as_str())
    }
}
