// One run as text, for every policy, and the bench program's answer to what was read, in lent lists. Every public function takes lists of any length, and
// states all that it answers and leaves.
#![tactic(auto)]

ghost use Rattle.std.specs.Prelude.{◌≤◌, length};
ghost use Rattle.model.specs.Limits.{record_limits};
ghost use Rattle.model.specs.Lent.{was, left, lists_before};
ghost use Rattle.output.specs.Output.{output_limit};
ghost use Rattle.output.specs.Writing.{WroteIn};
ghost use Rattle.text.specs.Run.{called_text, run_spoken};
ghost use Rattle.text.specs.Says.{Answered};

use model::{Beta, Cause, Record};
use output::{OUTPUT, RecordRows, put, put_refusal, put_rows, refuse};
use rows::RowsError;
use runs::{Policy, call, too_many};
use signs::{LINE_END, RECORD};

// The table that the bench program reads: a column of slots and a column of values.
pub const TABLE: usize = 2 * Record::PACKETS;

// What the bench program runs: PG with this room and this beta.
const ROOM: usize = 2;

const BETA: Beta = Beta { num: 9, den: 1 };

// What a policy says of a trace, with its record in three lent lists. The lists are one value only behind the call, which is lent three of them to write.
fn say(
    policy: Policy,
    room: usize,
    slots: &[u32],
    values: &[u32],
    fates: &mut [u32],
    whens: &mut [u32],
    bys: &mut [u32],
    out: &mut [u8],
) -> usize
    requires slots_len_bound { length slots.now ≤ record_limits.packets }
    requires output_limit_in_bounds { output_limit ≤ length out.old }
    ensures { WroteIn out result 0 (called_text policy room slots.now values.now (lists_before fates whens bys)) }
{
    if let Err(refusal) = call(policy, room, slots, values, fates, whens, bys) {
        return refuse(out, refusal);
    }
    let header = put(out, 0, &RECORD);
    let at = put(out, header, &LINE_END);
    let rows = RecordRows {
        slots,
        values,
        fates,
        whens,
        bys,
    };
    put_rows(out, at, rows)
}

// What a policy says of a trace. Nothing is written where the list is too short for the longest answer.
pub fn run(policy: Policy, room: usize, slots: &[u32], values: &[u32], out: &mut [u8]) -> usize
    ensures { WroteIn out result 0 (run_spoken policy room slots.now values.now (was out)) }
{
    if out.len() < OUTPUT {
        return 0;
    }
    let n = slots.len();
    if Record::PACKETS < n {
        return refuse(out, too_many(n, values.len()));
    }
    let mut fates = [0u32; Record::PACKETS];
    let mut whens = [0u32; Record::PACKETS];
    let mut bys = [0u32; Record::PACKETS];
    say(
        policy,
        room,
        slots,
        values,
        &mut fates[..n],
        &mut whens[..n],
        &mut bys[..n],
        out,
    )
}

// What the bench program says of what was read, and how many bytes that is. Nothing is written where a list is not as long as it has to be.
pub fn answer(read: Result<usize, RowsError>, table: &[u32], out: &mut [u8]) -> usize
    ensures { Answered read table.now (was out) result (left out) }
{
    if table.len() != TABLE || out.len() < OUTPUT {
        return 0;
    }
    match read {
        Err(RowsError::Malformed(line)) => put_refusal(out, u32::from(Cause::Text) as u64, line),
        Err(RowsError::TooMany) => put_refusal(out, u32::from(Cause::Packets) as u64, 0),
        Ok(count) => {
            let many = Record::PACKETS < count;
            if many {
                return put_refusal(out, u32::from(Cause::Packets) as u64, 0);
            }
            let (slots, values) = table.split_at(Record::PACKETS);
            run(
                Policy::PG(BETA),
                ROOM,
                &slots[..count],
                &values[..count],
                out,
            )
        }
    }
}
