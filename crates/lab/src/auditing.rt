// `audit`: the audit of a record, and what it says as text in a lent list.
ghost use Rattle.model.specs.Record.{lists_of};
ghost use Rattle.std.specs.Prelude.{◌≡◌, ◌≤◌, length};
ghost use Rattle.model.specs.Limits.{record_limits};
ghost use Rattle.model.specs.Calls.{audit_call};
ghost use Rattle.output.specs.Writing.{WroteIn};
ghost use Rattle.lab.specs.Audit.{misnumbered_from, verdict_text, audit_text};

use lab_table::counts_of;
use model::Cause;
use output::{put, put_line, put_refusal};
use replies::of_audit;

const HEADER: [u8; 60] = *b"sent,value,rejected,pushed out,preempted,flushed,most held\r\n";

// The line of the first row whose number is not its place.
fn misnumbered(numbers: &[u32]) -> Option<usize>
    requires { length numbers.now ≤ record_limits.packets }
    ensures { result ≡ misnumbered_from 1 numbers.now }
{
    for (i, number) in numbers.iter().enumerate() {
        let other = *number as usize != i + 1;
        if other {
            return Some(i + 2);
        }
    }
    None
}

// What the audit makes of a record whose rows are in their places.
fn say(
    room: usize,
    slots: &[u32],
    values: &[u32],
    fates: &[u32],
    whens: &[u32],
    bys: &[u32],
    out: &mut [u8],
) -> usize
    requires { 209 ≤ length out.old }
    ensures { WroteIn out result 0 (verdict_text (audit_call slots.now values.now room (lists_of fates.now whens.now bys.now))) }
{
    let reply = of_audit(audit::audit(slots, values, room, fates, whens, bys));
    let refused = reply.number != 0;
    if refused {
        return put_refusal(out, reply.number as u64, reply.place as u64);
    }
    let at = put(out, 0, &HEADER);
    put_line(out, at, &counts_of(reply.totals))
}

// What the audit makes of a record, with its rows' numbers.
pub fn check(
    room: usize,
    numbers: &[u32],
    slots: &[u32],
    values: &[u32],
    fates: &[u32],
    whens: &[u32],
    bys: &[u32],
    out: &mut [u8],
) -> usize
    requires numbers_len_bound { length numbers.now ≤ record_limits.packets }
    requires in_bounds { 209 ≤ length out.old }
    ensures { WroteIn out result 0 (audit_text room numbers.now slots.now values.now (lists_of fates.now whens.now bys.now)) }
{
    if let Some(line) = misnumbered(numbers) {
        return put_refusal(out, u32::from(Cause::Text) as u64, line as u64);
    }
    say(room, slots, values, fates, whens, bys, out)
}
