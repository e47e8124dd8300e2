// The faults of one packet against the buffer's rules: 12, 13 and 14. What they are stands in crate model.
#![tactic(auto)]

ghost use Rattle.std.specs.Prelude.{◌≡◌, suc};
ghost use Rattle.model.specs.declared.Fate.TheVariants as Fate;
ghost use Rattle.model.specs.Limits.{within};
ghost use Rattle.model.specs.Rules.{has_fate, by_wrong, when_wrong};
ghost use Rattle.audit_faults.specs.Faults.{row_of, last_of, not_after, row_fault, found_of};

use entry::slot_of;
use model::{Fate, Fault, PacketNumber, Slot};

// A packet of the trace beside what the record says of it, its fate being one.
#[derive(Clone, Copy)]
pub struct FatedRow {
    pub number: PacketNumber,
    pub slot: Slot,
    pub value: u32,
    pub fate: Fate,
    pub when: Slot,
    pub by: PacketNumber,
}

// The by of a packet that was lost or flushed is that of a later packet of the trace.
#[tactic(auto, unfolding(model::specs::Limits::within))]
fn by_later(packets: usize, row: FatedRow) -> bool
    ensures { result ≡ within (suc row.number.0) packets row.by.0 }
{
    row.number.0 < row.by.0 && row.by.0 as usize <= packets
}

#[tactic(auto, unfolding(model::specs::Rules::by_wrong, model::specs::Rules::at_fate, model::specs::Rules::has_fate))]
fn by_wrong(packets: usize, row: FatedRow) -> bool
    ensures { result ≡ by_wrong packets (row_of row) }
{
    match row.fate {
        Fate::Sent => row.by.0 != 0,
        Fate::Rejected => row.by.0 != row.number.0,
        Fate::PushedOut | Fate::Preempted | Fate::Flushed => !by_later(packets, row),
    }
}

#[tactic(auto, unfolding(model::specs::Rules::when_wrong, model::specs::Rules::at_fate, model::specs::Rules::has_fate))]
fn when_wrong(slots: &[u32], row: FatedRow) -> bool
    ensures { result ≡ when_wrong slots.now (row_of row) }
{
    match row.fate {
        Fate::Sent => row.when.0 < row.slot.0,
        Fate::Rejected => row.when.0 != row.slot.0,
        Fate::PushedOut | Fate::Preempted => row.when.0 != slot_of(slots, row.by).0,
        Fate::Flushed => row.when.0 < slot_of(slots, row.by).0,
    }
}

#[tactic(auto, unfolding(model::specs::Rules::has_fate))]
fn is_sent(row: FatedRow) -> bool
    ensures { result ≡ has_fate Fate.Sent (row_of row) }
{
    row.fate == Fate::Sent
}

// The when of the last packet sent, this one included; 0 where none was.
#[tactic(auto, unfolding(crate::specs::Faults::last_of))]
pub fn last_of(last: Slot, row: FatedRow) -> Slot
    ensures { result ≡ last_of last (row_of row) }
{
    if is_sent(row) {
        return row.when;
    }
    last
}

#[tactic(auto, unfolding(crate::specs::Faults::not_after))]
fn not_later(last: Slot, row: FatedRow) -> bool
    ensures { result ≡ not_after last.0 (row_of row) }
{
    is_sent(row) && row.when.0 <= last.0
}

// Faults 12, 13 and 14 of one packet, in this order.
#[tactic(auto, unfolding(model::specs::Rules::or_else))]
pub fn fault_of(slots: &[u32], last: Slot, row: FatedRow) -> Option<Fault>
    ensures { found_of result row.number ≡ row_fault slots.now last.0 (row_of row) }
{
    if by_wrong(slots.len(), row) {
        return Some(Fault::ByWrong);
    }
    let wrong = when_wrong(slots, row);
    let late = not_later(last, row);
    if wrong {
        return Some(Fault::WhenWrong);
    }
    if late {
        return Some(Fault::NotLater);
    }
    None
}
