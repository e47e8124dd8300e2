// Writing into a list that is long enough: the caller has seen that it is.
ghost use Rattle.std.specs.Prelude.{◌≡◌, ◌+◌, ◌*◌, ◌<◌, ◌≤◌, length};
ghost use Rattle.model.specs.Packets.{arrivals};
ghost use Rattle.model.specs.Record.{rows as record_rows};
ghost use Rattle.trace.specs.Checked.{lengths_equal};
ghost use Rattle.output.specs.Output.{decimal, line_with, row_lines};
ghost use Rattle.output.specs.Writing.{WroteIn, lists_in, SameLengthsIn, row_at};

use signs::{COMMA, LINE_END, ZERO};

// The most digits of a u64.
const DIGITS: usize = 20;

// A trace and a record: an entry a packet in each list, if their lengths are equal.
#[derive(Clone, Copy)]
pub struct RecordRows<'a> {
    pub slots: &'a [u32],
    pub values: &'a [u32],
    pub fates: &'a [u32],
    pub whens: &'a [u32],
    pub bys: &'a [u32],
}

impl<'a> RecordRows<'a> {
    pub fn lengths_equal(self) -> bool
        ensures { let r = self.entry in result ≡ lengths_equal r.slots.now r.values.now (lists_in r) }
    {
        let n = self.slots.len();
        self.values.len() == n
            && self.fates.len() == n
            && self.whens.len() == n
            && self.bys.len() == n
    }

    // The numbers of the row at a place: the packet's number, its slot and value, and what the record says of it.
    fn row(self, i: usize) -> [u64; 6]
        requires same_lengths { SameLengthsIn self }
        requires i_in_bounds { i < length self.slots.now }
        ensures { result ≡ row_at self.entry i }
    {
        [
            (i + 1) as u64,
            self.slots[i] as u64,
            self.values[i] as u64,
            self.fates[i] as u64,
            self.whens[i] as u64,
            self.bys[i] as u64,
        ]
    }
}

// Writes some bytes, and answers the place behind them.
#[tactic(auto, using(crate::proofs::Writing::wrote_part))]
pub fn write_bytes(out: &mut [u8], at: usize, text: &[u8]) -> usize
    requires { at + length text.now ≤ length out.old }
    ensures { WroteIn out result at text.now }
{
    let end = at + text.len();
    out[at..end].copy_from_slice(text);
    end
}

// Writes a number in decimal: the digits from the last on, and then all of them.
pub fn write_number(out: &mut [u8], at: usize, number: u64) -> usize
    requires { at + 20 ≤ length out.old }
    ensures { WroteIn out result at (decimal number) }
{
    let mut digits = [0u8; DIGITS];
    let mut left = number;
    for i in (0..DIGITS).rev() {
        digits[i] = ZERO + (left % 10) as u8;
        let last = left < 10;
        if last {
            return write_bytes(out, at, &digits[i..]);
        }
        left /= 10;
    }
    write_bytes(out, at, &digits)
}

// Writes a line of numbers, with a comma between two.
pub fn write_line(out: &mut [u8], at: usize, numbers: &[u64]) -> usize
    requires { at + 21 * length numbers.now + 2 ≤ length out.old }
    ensures { WroteIn out result at (line_with numbers.now) }
{
    let mut end = at;
    for (i, number) in numbers.iter().enumerate() {
        end = write_number(out, end, *number);
        let more = i + 1 < numbers.len();
        if more {
            out[end] = COMMA;
            end += 1;
        }
    }
    write_bytes(out, end, &LINE_END)
}

// Writes a record's rows.
pub fn write_rows(out: &mut [u8], at: usize, rows: RecordRows) -> usize
    requires same_lengths { SameLengthsIn rows }
    requires slots_in_bounds { at + 128 * length rows.slots.now ≤ length out.old }
    ensures { let r = rows.entry in WroteIn out result at (row_lines (record_rows (arrivals r.slots.now r.values.now) (lists_in r))) }
{
    let mut end = at;
    for i in 0..rows.slots.len() {
        end = write_line(out, end, &rows.row(i));
    }
    end
}
