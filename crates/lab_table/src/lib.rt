// The table as text: a line for each policy. What another crate can call takes lists of any length.
#![tactic(auto)]

ghost use Rattle.std.specs.Prelude.{◌≡◌, ◌≤◌, length, take};
ghost use Rattle.model.specs.Lent.{was};
ghost use Rattle.output.specs.Writing.{WroteIn};
ghost use Rattle.lab_table.specs.Line.{counts_of};
ghost use Rattle.lab_table.specs.Table.{betas_from, table_spoken, table_of_lists_spoken};

mod line;
mod lines;

use lines::draft;
use model::{Beta, Totals};
use output::put;

// The most betas of a table.
pub const BETAS: usize = 32;

// The most bytes of a table: its header, and the lines of greedy, of each beta, of MF and of the plan.
const BYTES: usize = 75 + 239 * (3 + BETAS);

// The counts of a run, in the table's order.
pub fn counts_of(t: Totals) -> [u64; 7]
    ensures { result ≡ counts_of t }
{
    [
        t.sent.count.into(),
        t.sent.value.into(),
        t.rejected.count.into(),
        t.pushed_out.count.into(),
        t.preempted.count.into(),
        t.flushed.count.into(),
        t.most_held as u64,
    ]
}

// The table, or the first refusal: the plan's comes first. Nothing is written where the list is too short for the longest table, or the betas are too many.
pub fn table(room: usize, slots: &[u32], values: &[u32], betas: &[Beta], out: &mut [u8]) -> usize
    ensures { WroteIn out result 0 (table_spoken room betas.now slots.now values.now (was out)) }
{
    if out.len() < BYTES {
        return 0;
    }
    let many = BETAS < betas.len();
    if many {
        return 0;
    }
    let mut text = [0u8; BYTES];
    let end = draft(room, slots, values, betas, &mut text);
    put(out, 0, &text[..end])
}

// Puts the betas of numerators and denominators into a lent list, in pairs.
fn pair_betas(nums: &[u32], dens: &[u32], betas: &mut [Beta])
    requires dens_len { length nums.now ≤ length dens.now }
    requires betas_len { length nums.now ≤ length betas.old }
    ensures { take (length nums.now) betas.new ≡ betas_from nums.now dens.now }
{
    for (place, num) in nums.iter().enumerate() {
        betas[place] = Beta {
            num: *num,
            den: dens[place],
        };
    }
}

// The table, for a caller that holds the betas in parallel lists. Nothing is written where they are not as many numerators as denominators, or too many.
pub fn table_of_lists(
    room: usize,
    slots: &[u32],
    values: &[u32],
    nums: &[u32],
    dens: &[u32],
    out: &mut [u8],
) -> usize
    ensures { WroteIn out result 0 (table_of_lists_spoken room nums.now dens.now slots.now values.now (was out)) }
{
    if dens.len() != nums.len() {
        return 0;
    }
    let many = BETAS < nums.len();
    if many {
        return 0;
    }
    let mut betas = [Beta { num: 0, den: 0 }; BETAS];
    pair_betas(nums, dens, &mut betas);
    table(room, slots, values, &betas[..nums.len()], out)
}
