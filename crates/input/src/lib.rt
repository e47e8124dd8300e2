// A reader, read to its end in pieces, as rows of numbers under a header, into a lent table. It stops where a read fails, and where the input is as
// long as a line's number can count, which no input is.
#![tactic(auto)]

ghost use Rattle.input.specs.declared.InputError.TheVariants.{Failed};
ghost use Rattle.std.specs.Prelude.{◌≡◌};
ghost use Rattle.input.specs.Reads.{EndedBy};

use rows::{Parser, RowsError};
use std::io;
use std::io::Read;

// The bytes of a piece.
const PIECE: usize = 4_096;

// The most bytes that are read.
const BYTES: u64 = u64::MAX - 2;

// Why reading stopped before the end of the input: a read failed, or there was more input than can be counted.
#[derive(Clone, Copy)]
pub enum InputError {
    Failed,
    TooLong,
}

impl From<io::Error> for InputError {
    ghost from_gives = { λ _ error. error ≡ Failed };

    fn from(_error: io::Error) -> InputError {
        InputError::Failed
    }
}

// Reads the reader to its end, and leaves its rows in the table, column by column.
pub fn read_rows<R: Read>(
    reader: &mut R,
    header: &[u8],
    table: &mut [u32],
) -> Result<Result<usize, RowsError>, InputError>
    ensures { EndedBy header.now result table.old table.new }
{
    let mut bytes = [0u8; PIECE];
    let mut parser = Parser::new(header);
    let mut left = BYTES;
    // No `for`: how many bytes a turn takes is for the reader to say.
    while 0 < left {
        let n = reader.read(&mut bytes)?;
        let ended = n == 0;
        if ended {
            let last = parser.end(header, table);
            return Ok(last.outcome());
        }
        parser = parser.feed(header, table, &bytes[..n]);
        left = left.saturating_sub(n as u64);
    }
    Err(InputError::TooLong)
}
