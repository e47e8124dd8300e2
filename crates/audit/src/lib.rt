// The audit of anyone's record: the first fault against the buffer's rules, or the totals. What it answers stands in crate model.
#![tactic(auto)]

ghost use Rattle.std.specs.Prelude.{◌≡◌, false, ◌+◌, ◌≤◌, ◌<◌, min, max, length};
ghost use Rattle.model.specs.Packets.{arrivals};
ghost use Rattle.model.specs.Record.{rows, lists_of};
ghost use Rattle.model.specs.Refusals.{value_ok};
ghost use Rattle.model.specs.Answers.{of_audit};
ghost use Rattle.model.specs.Calls.{audit_call};
ghost use Rattle.model.specs.Limits.{record_limits};
ghost use Rattle.model.specs.Rules.{by_wrong, buffer_of};
ghost use Rattle.audit_faults.specs.Faults.{row_of};
ghost use Rattle.laws.specs.Accepted.{NeverDown, Accepted};
ghost use Rattle.audit.specs.Rows.{row_at, Reads, Place};
ghost use Rattle.audit.specs.Sweep.{up_to, leave_of, SweptAs};

use audit_faults::{FatedRow, fault_of, last_of};
use model::{AuditError, Fate, Fault, FirstFault, PacketNumber, Record, Slot, Totals};
use totals::{only_if, totals};

// Some slots at the front of the trace that are not after `when`: the first `near`, if the last of these is not.
fn front(slots: &[u32], near: usize, when: Slot) -> usize
    requires { NeverDown slots.now }
    ensures { result ≤ up_to slots.now when.0 }
{
    if near == 0 {
        return 0;
    }
    if near <= slots.len() && slots[near - 1] <= when.0 {
        return near;
    }
    0
}

// How many slots at the front of the trace are not after `when`: behind the first `near` by growing steps, then by halving.
fn up_to(slots: &[u32], near: usize, when: Slot) -> usize
    requires { NeverDown slots.now }
    ensures { result ≡ up_to slots.now when.0 }
{
    let mut low = front(slots, near, when);
    let mut high = slots.len();
    let mut step = 0;
    while low < high {
        let ahead = step.min((high - low) / 2);
        let middle = low + ahead;
        if slots[middle] <= when.0 {
            low = middle + 1;
            step = ahead + ahead + 1;
        } else {
            high = middle;
        }
    }
    low
}

// The place of the first arrival at which the packet is held no more.
#[tactic(auto, unfolding(crate::specs::Sweep::leave_of, model::specs::Rules::at_fate, model::specs::Rules::has_fate, model::specs::Rules::by_wrong, model::specs::Limits::within))]
fn leave_of(slots: &[u32], row: FatedRow) -> usize
    requires { NeverDown slots.now × (by_wrong (length slots.now) (row_of row) ≡ false) }
    ensures { result ≡ leave_of slots.now (row_of row) }
{
    match row.fate {
        Fate::Sent | Fate::Flushed => up_to(slots, row.number.0 as usize, row.when),
        Fate::Rejected => 0,
        Fate::PushedOut | Fate::Preempted => row.by.0 as usize - 1,
    }
}

// The packet at place i beside its entry; fault 11 where the entry has a fate outside 1 to 5.
#[tactic(auto, unfolding(model::specs::Rules::fate_outside))]
fn row_at(
    slots: &[u32],
    values: &[u32],
    fates: &[u32],
    whens: &[u32],
    bys: &[u32],
    i: usize,
) -> Result<FatedRow, Fault>
    requires { Place slots.now values.now (lists_of fates.now whens.now bys.now) i }
    ensures { Reads (row_at slots.now values.now (lists_of fates.now whens.now bys.now) i) result }
{
    let fate = Fate::try_from(fates[i])?;
    let place = i as u32;
    let number = place + 1;
    Ok(FatedRow {
        number: PacketNumber(number),
        slot: Slot(slots[i]),
        value: values[i],
        fate,
        when: Slot(whens[i]),
        by: PacketNumber(bys[i]),
    })
}

// The fault of the packet at place i.
fn faulty(fault: Fault, i: usize) -> FirstFault
    requires { i < record_limits.packets }
    ensures { result ≡ record { fault = fault; packet = record { 0 = i + 1 } } }
{
    FirstFault {
        fault,
        packet: PacketNumber(i as u32 + 1),
    }
}

// One sweep over the packets: the first fault, else the most held. leaving[k] counts the packets passed that are held no more from the arrival at place k on.
fn sweep(
    slots: &[u32],
    values: &[u32],
    room: usize,
    fates: &[u32],
    whens: &[u32],
    bys: &[u32],
) -> Result<u32, FirstFault>
    requires { Accepted value_ok slots.now values.now room (lists_of fates.now whens.now bys.now) }
    ensures { SweptAs (buffer_of slots.now room) (rows (arrivals slots.now values.now) (lists_of fates.now whens.now bys.now)) result }
{
    let mut leaving = [0u32; Record::PACKETS + 1];
    let mut held: u32 = 0;
    let mut most: u32 = 0;
    let mut last = Slot(0);
    for i in 0..slots.len() {
        let row = match row_at(slots, values, fates, whens, bys, i) {
            Ok(row) => row,
            Err(fault) => return Err(faulty(fault, i)),
        };
        if let Some(fault) = fault_of(slots, last, row) {
            return Err(faulty(fault, i));
        }
        last = last_of(last, row);
        let leave = leave_of(slots, row);
        let stays = only_if(i < leave, 1);
        held = held - leaving[i] + stays;
        leaving[leave] += stays;
        if room < held as usize {
            return Err(faulty(Fault::OverRoom, i));
        }
        most = most.max(held);
    }
    Ok(most)
}

// The audit of a record: refusals 1, 2, 3, 5 and 6, then the first fault, else the totals.
pub fn audit(
    slots: &[u32],
    values: &[u32],
    room: usize,
    fates: &[u32],
    whens: &[u32],
    bys: &[u32],
) -> Result<Totals, AuditError>
    ensures { of_audit result ≡ audit_call slots.now values.now room (lists_of fates.now whens.now bys.now) }
{
    trace::check_plain(slots, values, room, fates, whens, bys)?;
    let most = sweep(slots, values, room, fates, whens, bys)?;
    Ok(totals(values, fates, most))
}
