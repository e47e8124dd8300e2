// A line of the table: a policy's name, what its run came to, and its sent value as a part of the plan's.
ghost use Rattle.std.specs.Prelude.{◌+◌, ◌*◌, ◌≤◌, length};
ghost use Rattle.output.specs.Writing.{WroteIn};
ghost use Rattle.lab_table.specs.Line.{name_of, behind_commas, part_of, line_of};

use crate::counts_of;
use model::Totals;
use output::{put, put_number};
use runs::Policy;
use signs::{COMMA, ZERO};

// Writes a policy's name with its parameters.
fn put_name(out: &mut [u8], at: usize, policy: Policy) -> usize
    requires { at + 65 ≤ length out.old }
    ensures { WroteIn out result at (name_of policy) }
{
    match policy {
        Policy::Greedy => put(out, at, b"greedy"),
        Policy::PG(beta) => {
            let word = put(out, at, b"pg ");
            let num = put_number(out, word, beta.num as u64);
            let slash = put(out, num, b"/");
            put_number(out, slash, beta.den as u64)
        }
        Policy::MF(m) => {
            let word = put(out, at, b"mf ");
            let lo = put_number(out, word, m.lo as u64);
            let first = put(out, lo, b" ");
            let hi = put_number(out, first, m.hi as u64);
            let second = put(out, hi, b" ");
            put_number(out, second, m.r as u64)
        }
        Policy::Plan => put(out, at, b"plan"),
    }
}

// Writes numbers, each behind a comma.
fn put_numbers(out: &mut [u8], at: usize, numbers: &[u64]) -> usize
    requires { at + 21 * length numbers.now ≤ length out.old }
    ensures { WroteIn out result at (behind_commas numbers.now) }
{
    let mut end = at;
    for number in numbers {
        out[end] = COMMA;
        end = put_number(out, end + 1, *number);
    }
    end
}

// Writes a value as a part of the plan's.
fn put_part(out: &mut [u8], at: usize, value: u32, plan: u32) -> usize
    requires { at + 24 ≤ length out.old }
    ensures { WroteIn out result at (part_of value plan) }
{
    if plan == 0 {
        return put(out, at, b"-");
    }
    let part = value as u64 * 1_000 / plan as u64;
    let whole = put_number(out, at, part / 1_000);
    let first = ZERO + (part / 100 % 10) as u8;
    let second = ZERO + (part / 10 % 10) as u8;
    let third = ZERO + (part % 10) as u8;
    let decimals = [b'.', first, second, third];
    put(out, whole, &decimals)
}

// Writes the line of a policy whose run has these totals.
pub fn put_line(out: &mut [u8], at: usize, policy: Policy, t: Totals, plan: u32) -> usize
    requires { at + 239 ≤ length out.old }
    ensures { WroteIn out result at (line_of policy t plan) }
{
    let counts = counts_of(t);
    let name = put_name(out, at, policy);
    let numbers = put_numbers(out, name, &counts);
    let comma = put(out, numbers, b",");
    let part = put_part(out, comma, t.sent.value, plan);
    put(out, part, b"\r\n")
}
