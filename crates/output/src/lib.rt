// Writing the output of a program: bytes, numbers, lines of numbers, a refusal, and a record's rows, each from a place of a lent list on. A function
// answers the place behind what it wrote. Where the list has fewer places than the longest text of its kind takes, it writes nothing and answers `at`.
#![tactic(auto)]

ghost use Rattle.std.specs.Prelude.{◌+◌, ◌*◌, ◌≤◌, ◌↔◌, IsTrue, length};
ghost use Rattle.model.specs.Numbers.{cause_number};
ghost use Rattle.output.specs.Output.{decimal, line_with, refusal_text};
ghost use Rattle.output.specs.Writing.{PutIn, lists_in, rows_text};

mod write;

use model::{Record, Refusal};
use replies::of_run;
pub use write::RecordRows;
use write::{write_bytes, write_line, write_number, write_rows};

// The most bytes of a number, of one number of a line with what stands behind it, of a line's end, of a row, and of a refusal.
const NUMBER: usize = 20;

const PART: usize = 21;

const END: usize = 2;

const ROW: usize = 128;

const REFUSED: usize = 59;

// The most bytes of an answer: a record's header with its line's end, and its rows.
pub const OUTPUT: usize = 32 + ROW * Record::PACKETS;

const REFUSAL: [u8; 15] = *b"refusal,place\r\n";

// Whether the list has so many places from `at` on. One function of a closure in place of the five that test for their places would be no shorter: each
// has its own length and its own text.
fn has_places(out: &[u8], at: usize, need: usize) -> bool
    ensures { IsTrue result ↔ (at + need ≤ length out.now) }
{
    need <= out.len() && at <= out.len() - need
}

// Writes some bytes.
pub fn put(out: &mut [u8], at: usize, text: &[u8]) -> usize
    ensures { PutIn out result (length text.now) at text.now }
{
    if has_places(out, at, text.len()) {
        return write_bytes(out, at, text);
    }
    at
}

// Writes a number in decimal.
pub fn put_number(out: &mut [u8], at: usize, number: u64) -> usize
    ensures { PutIn out result 20 at (decimal number) }
{
    if has_places(out, at, NUMBER) {
        return write_number(out, at, number);
    }
    at
}

// Writes a line of numbers, with a comma between two.
pub fn put_line(out: &mut [u8], at: usize, numbers: &[u64]) -> usize
    ensures { PutIn out result (21 * length numbers.now + 2) at (line_with numbers.now) }
{
    let need = numbers.len().saturating_mul(PART).saturating_add(END);
    if has_places(out, at, need) {
        return write_line(out, at, numbers);
    }
    at
}

// Writes a refusal, from the start of the list on.
pub fn put_refusal(out: &mut [u8], number: u64, place: u64) -> usize
    ensures { PutIn out result 59 0 (refusal_text number place) }
{
    if has_places(out, 0, REFUSED) {
        let at = write_bytes(out, 0, &REFUSAL);
        return write_line(out, at, &[number, place]);
    }
    0
}

// Writes a call's refusal, from the start of the list on.
pub fn refuse(out: &mut [u8], refusal: Refusal) -> usize
    ensures { PutIn out result 59 0 (refusal_text (cause_number refusal.cause) refusal.place) }
{
    let reply = of_run(Err(refusal));
    put_refusal(out, reply.number as u64, reply.place as u64)
}

// Writes a record's rows. Lists that differ in length are no record: then it writes nothing.
#[tactic(auto, using(crate::proofs::Putting::put_nothing), unfolding(crate::specs::Writing::rows_text))]
pub fn put_rows(out: &mut [u8], at: usize, rows: RecordRows) -> usize
    ensures { let r = rows.entry in PutIn out result (128 * length r.slots.now) at (rows_text r.slots.now r.values.now (lists_in r)) }
{
    let need = rows.slots.len().saturating_mul(ROW);
    if rows.lengths_equal() && has_places(out, at, need) {
        return write_rows(out, at, rows);
    }
    at
}
