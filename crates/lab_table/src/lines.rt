// The lines of the table: all policies side by side.
ghost use Rattle.std.specs.Prelude.{◌≡◌, [], ◌∷◌, ◌+◌, ◌*◌, ◌≤◌, length};
ghost use Rattle.output.specs.Writing.{WroteIn};
ghost use Rattle.lab_table.specs.Table.{most_betas, table_limit, lowest, greatest, lines_of, betas_of, compared_of, mf_line, table_with, table_text};
ghost use Rattle.lab_table.specs.Writing.{BeginsIn, LinedIn};

use crate::line::put_line;
use model::{Beta, Marking, Refusal, Totals};
use output::{put, refuse};
use runs::{Policy, reply};

const HEADER: [u8; 75] =
    *b"policy,sent,value,rejected,pushed out,preempted,flushed,most held,of plan\r\n";

fn lowest(values: &[u32]) -> u32
    ensures { result ≡ lowest values.now }
{
    values.iter().copied().min().unwrap_or(0)
}

fn greatest(values: &[u32]) -> u32
    ensures { result ≡ greatest values.now }
{
    values.iter().copied().max().unwrap_or(0)
}

// Writes the line of a policy.
fn put_policy(
    out: &mut [u8],
    at: usize,
    policy: Policy,
    room: usize,
    slots: &[u32],
    values: &[u32],
    plan: u32,
) -> Result<usize, Refusal>
    requires { at + 239 ≤ length out.old }
    ensures { LinedIn out result at (lines_of room slots.now values.now plan (policy ∷ [])) }
{
    let totals = reply(policy, room, slots, values)?;
    Ok(put_line(out, at, policy, totals, plan))
}

// Writes the lines of PG with each beta.
fn put_betas(
    out: &mut [u8],
    at: usize,
    room: usize,
    slots: &[u32],
    values: &[u32],
    betas: &[Beta],
    plan: u32,
) -> Result<usize, Refusal>
    requires { at + 239 * length betas.now ≤ length out.old }
    ensures { LinedIn out result at (lines_of room slots.now values.now plan (betas_of betas.now)) }
{
    let mut end = at;
    for beta in betas {
        end = put_policy(out, end, Policy::PG(*beta), room, slots, values, plan)?;
    }
    Ok(end)
}

// Writes the lines whose refusal refuses the table.
fn put_compared(
    out: &mut [u8],
    at: usize,
    room: usize,
    slots: &[u32],
    values: &[u32],
    betas: &[Beta],
    plan: u32,
) -> Result<usize, Refusal>
    requires { at + 239 + 239 * length betas.now ≤ length out.old }
    ensures { LinedIn out result at (compared_of room slots.now values.now plan betas.now) }
{
    let next = put_policy(out, at, Policy::Greedy, room, slots, values, plan)?;
    put_betas(out, next, room, slots, values, betas, plan)
}

// Writes the line of MF, with the trace's own lo and hi, unless it is refused.
fn put_mf(out: &mut [u8], at: usize, room: usize, slots: &[u32], values: &[u32], plan: u32) -> usize
    requires { at + 239 ≤ length out.old }
    ensures { WroteIn out result at (mf_line room slots.now values.now plan) }
{
    let policy = Policy::MF(Marking {
        lo: lowest(values),
        hi: greatest(values),
        r: 1,
    });
    match reply(policy, room, slots, values) {
        Err(_) => at,
        Ok(totals) => put_line(out, at, policy, totals, plan),
    }
}

// The table beside a plan that has these totals.
fn table_with(
    room: usize,
    slots: &[u32],
    values: &[u32],
    betas: &[Beta],
    plan: Totals,
    out: &mut [u8],
) -> usize
    requires betas_len_bound { length betas.now ≤ most_betas }
    requires table_limit_in_bounds { table_limit ≤ length out.old }
    ensures { BeginsIn out result (table_with room betas.now slots.now values.now plan) }
{
    let best = plan.sent.value;
    let at = put(out, 0, &HEADER);
    match put_compared(out, at, room, slots, values, betas, best) {
        Err(refusal) => refuse(out, refusal),
        Ok(next) => {
            let end = put_mf(out, next, room, slots, values, best);
            put_line(out, end, Policy::Plan, plan, best)
        }
    }
}

// The table, or the first refusal: the plan's comes first. Behind a refusal stand the lines that were written before it.
pub fn draft(room: usize, slots: &[u32], values: &[u32], betas: &[Beta], out: &mut [u8]) -> usize
    requires betas_len_bound { length betas.now ≤ most_betas }
    requires table_limit_in_bounds { table_limit ≤ length out.old }
    ensures { BeginsIn out result (table_text room betas.now slots.now values.now) }
{
    match reply(Policy::Plan, room, slots, values) {
        Err(refusal) => refuse(out, refusal),
        Ok(totals) => table_with(room, slots, values, betas, totals, out),
    }
}
