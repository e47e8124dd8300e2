// The test of a trace: refusals 1 to 6, in each call's order. What is refused, and at which place, stands in crate model.
#![tactic(auto)]

ghost use Rattle.model.specs.Record.{lists_of};
ghost use Rattle.std.specs.Prelude.{◌≡◌, true, length};
ghost use Rattle.model.specs.Rules.{clear};
ghost use Rattle.model.specs.Refusals.{unless as unless_ok, marking_ok, slot_ok, packet_refusal, trace_refusal, plain_refusal, pg_refusal, mf_refusal};
ghost use Rattle.trace.specs.Checked.{verdict_of, ok_of, lengths_equal, Lengths};
ghost use Rattle.trace.specs.Fitting.{SlotsFit};

use checks::ranges::{beta_ok, room_ok};
use checks::{value_ok, values_ok};
use model::{Beta, Cause, Marking, Record, Refusal, Slot};

fn slot_ok(before: Slot, slot: Slot) -> bool
    ensures { result ≡ slot_ok before slot }
{
    if slot.0 < 1 {
        return false;
    }
    if Record::SLOT < slot.0 {
        return false;
    }
    before.0 <= slot.0
}

// Whether a call takes a value: one in range, and under a marking only lo and hi.
fn value_taken(marking: Option<Marking>, value: u32) -> bool
    ensures { result ≡ ok_of marking value }
{
    if !value_ok(value) {
        return false;
    }
    match marking {
        None => true,
        Some(Marking { lo, hi, .. }) => value == lo || value == hi,
    }
}

fn marking_ok(marking: Marking) -> bool
    ensures { result ≡ marking_ok marking }
{
    let Marking { lo, hi, r } = marking;
    if !value_ok(lo) {
        return false;
    }
    if !value_ok(hi) {
        return false;
    }
    if hi <= lo {
        return false;
    }
    r <= Record::R
}

// 5 and 6: the lowest packet with either, 5 first at one packet.
fn packets(slots: &[u32], values: &[u32], marking: Option<Marking>) -> Result<(), Refusal>
    requires { Lengths slots.now values.now }
    ensures { verdict_of result ≡ packet_refusal (ok_of marking) slots.now values.now }
{
    let mut before = Slot(0);
    for i in 0..slots.len() {
        let slot = Slot(slots[i]);
        let place = i as u32 + 1;
        let slot_fits = slot_ok(before, slot);
        let value_fits = value_taken(marking, values[i]);
        if !slot_fits {
            return Err(Refusal {
                cause: Cause::Slot,
                place,
            });
        }
        if !value_fits {
            return Err(Refusal {
                cause: Cause::Value,
                place,
            });
        }
        before = slot;
    }
    Ok(())
}

// Whether all slots are in range and none is below the one before. Nothing is decided on the way, so a turn costs little.
fn slots_fit(slots: &[u32]) -> bool
    ensures { result ≡ true → SlotsFit slots.now (length slots.now) }
{
    let mut bad = false;
    let mut last = 0;
    for &slot in slots {
        bad = bad | (slot < 1) | (Record::SLOT < slot) | (slot < last);
        last = slot;
    }
    !bad
}

// Whether it is plain that no packet is refused. MF's values are left to the walk.
fn all_fit(slots: &[u32], values: &[u32], marking: Option<Marking>) -> bool
    requires { Lengths slots.now values.now }
    ensures { result ≡ true → packet_refusal (ok_of marking) slots.now values.now ≡ clear }
{
    match marking {
        None => slots_fit(slots) && values_ok(values),
        Some(_) => false,
    }
}

// 5 and 6: what is plain at once, else the walk.
fn packets_or_none(slots: &[u32], values: &[u32], marking: Option<Marking>) -> Result<(), Refusal>
    requires { Lengths slots.now values.now }
    ensures { verdict_of result ≡ packet_refusal (ok_of marking) slots.now values.now }
{
    if all_fit(slots, values, marking) {
        return Ok(());
    }
    packets(slots, values, marking)
}

fn lengths_equal(slots: &[u32], values: &[u32], fates: &[u32], whens: &[u32], bys: &[u32]) -> bool
    ensures { result ≡ lengths_equal slots.now values.now (lists_of fates.now whens.now bys.now) }
{
    let n = slots.len();
    values.len() == n && fates.len() == n && whens.len() == n && bys.len() == n
}

// A refusal that names no place.
fn refused(cause: Cause) -> Result<(), Refusal>
    ensures { result ≡ Err (record { cause = cause; place = 0 }) }
{
    Err(Refusal { cause, place: 0 })
}

// A call's own test of a parameter.
fn unless(ok: bool, cause: Cause) -> Result<(), Refusal>
    ensures { verdict_of result ≡ unless_ok ok cause }
{
    if ok { Ok(()) } else { refused(cause) }
}

// Every call on a trace: 1, 2, 3, what the tests of its own parameters say, then 5 and 6.
#[tactic(auto, using(crate::proofs::Laws::cause_refuses), unfolding(model::specs::Rules::or_else))]
fn in_order(
    slots: &[u32],
    values: &[u32],
    room: usize,
    fates: &[u32],
    whens: &[u32],
    bys: &[u32],
    own: Result<(), Refusal>,
    marking: Option<Marking>,
) -> Result<(), Refusal>
    ensures { verdict_of result ≡ trace_refusal (verdict_of own) (ok_of marking) slots.now values.now room (lists_of fates.now whens.now bys.now) }
{
    if !lengths_equal(slots, values, fates, whens, bys) {
        return refused(Cause::Lengths);
    }
    let many = Record::PACKETS < slots.len();
    if many {
        return refused(Cause::Packets);
    }
    if !room_ok(room) {
        return refused(Cause::Room);
    }
    own?;
    packets_or_none(slots, values, marking)
}

// The test for plain greedy, the audit and the offline plan.
#[tactic(auto, unfolding(model::specs::Refusals::plain_refusal))]
pub fn check_plain(
    slots: &[u32],
    values: &[u32],
    room: usize,
    fates: &[u32],
    whens: &[u32],
    bys: &[u32],
) -> Result<(), Refusal>
    ensures { verdict_of result ≡ plain_refusal slots.now values.now room (lists_of fates.now whens.now bys.now) }
{
    in_order(slots, values, room, fates, whens, bys, Ok(()), None)
}

#[tactic(auto, unfolding(model::specs::Refusals::pg_refusal))]
pub fn check_pg(
    slots: &[u32],
    values: &[u32],
    room: usize,
    beta: Beta,
    fates: &[u32],
    whens: &[u32],
    bys: &[u32],
) -> Result<(), Refusal>
    ensures { verdict_of result ≡ pg_refusal beta slots.now values.now room (lists_of fates.now whens.now bys.now) }
{
    in_order(
        slots,
        values,
        room,
        fates,
        whens,
        bys,
        unless(beta_ok(beta), Cause::Parameters),
        None,
    )
}

#[tactic(auto, unfolding(model::specs::Refusals::mf_refusal))]
pub fn check_mf(
    slots: &[u32],
    values: &[u32],
    room: usize,
    marking: Marking,
    fates: &[u32],
    whens: &[u32],
    bys: &[u32],
) -> Result<(), Refusal>
    ensures { verdict_of result ≡ mf_refusal marking slots.now values.now room (lists_of fates.now whens.now bys.now) }
{
    in_order(
        slots,
        values,
        room,
        fates,
        whens,
        bys,
        unless(marking_ok(marking), Cause::Parameters),
        Some(marking),
    )
}
