// MF and the offline plan on a trace, each a call that tests its input, runs, and answers the totals of the record that it wrote.
#![tactic(auto)]

mod kept;
mod marking;

ghost use Rattle.std.specs.Prelude.{◌≡◌};
ghost use Rattle.model.specs.Calls.{mf_call, plan_call};
ghost use Rattle.model.specs.Lent.{lists_before, lists_after};
ghost use Rattle.steps.specs.Calls.{outcome};

use crate::kept::Kept;
use crate::marking::MarkAndFlush;
use model::{Marking, Record, Refusal, Totals};
use plan_kept::keep;
use runs_loop::{Accepted, finish};

// MF.
pub fn mf(
    slots: &[u32],
    values: &[u32],
    room: usize,
    marking: Marking,
    fates: &mut [u32],
    whens: &mut [u32],
    bys: &mut [u32],
) -> Result<Totals, Refusal>
    ensures { outcome result (lists_after fates whens bys) ≡ mf_call slots.now values.now room marking (lists_before fates whens bys) }
{
    trace::check_mf(slots, values, room, marking, fates, whens, bys)?;
    let mut marks = [0u32; Record::PACKETS];
    let marks = &mut marks[..slots.len()];
    let policy = MarkAndFlush {
        room,
        marking,
        slots,
        marks,
    };
    let accepted = Accepted {
        slots,
        values,
        policy,
    };
    Ok(finish(accepted, fates, whens, bys))
}

// The offline plan: which packets it keeps, then the run in which these are held.
pub fn plan(
    slots: &[u32],
    values: &[u32],
    room: usize,
    fates: &mut [u32],
    whens: &mut [u32],
    bys: &mut [u32],
) -> Result<Totals, Refusal>
    ensures { outcome result (lists_after fates whens bys) ≡ plan_call slots.now values.now room (lists_before fates whens bys) }
{
    let mut kept = [0u8; Record::PACKETS];
    // One entry for each packet, as far as a trace can be accepted.
    let n = slots.len().min(Record::PACKETS);
    keep(slots, values, room, fates, whens, bys, &mut kept[..n])?;
    let policy = Kept { kept: &kept[..n] };
    let accepted = Accepted {
        slots,
        values,
        policy,
    };
    Ok(finish(accepted, fates, whens, bys))
}
