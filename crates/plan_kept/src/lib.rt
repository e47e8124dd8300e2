// The packets that the offline plan keeps: 1 for each that is kept, 0 for every other. Beside it stands how many kept packets are held just after each arrival,
// so that a packet is tried on the arrivals that would find it still held, and on no others.
#![tactic(auto)]

ghost use Rattle.std.specs.Prelude.{◌≡◌, [], ◌∷◌, ◌<◌, length};
ghost use Rattle.model.specs.Packets.{arrivals};
ghost use Rattle.model.specs.Refusals.{value_ok};
ghost use Rattle.model.specs.Policies.Plan.{plan_kept};
ghost use Rattle.model.specs.Record.{lists_of};
ghost use Rattle.laws.specs.Accepted.{Accepted};
ghost use Rattle.plan_order.specs.Order.{Inside};
ghost use Rattle.plan_kept.specs.Keep.{Triable, Reach, Raisable, Raised, Keepable, HeldAs, TakenInTurn, TestsAndKeeps};

use model::{Record, Refusal};
use plan_order::by_falling_value;

// How far one more packet at a place reaches: the first arrival after it that finds it sent, as it finds all others, or the end of the trace. If an arrival
// before that has no room for one more, the place itself.
fn reach(slots: &[u32], room: usize, held: &[u16], place: usize) -> usize
    requires { Triable slots.now held.now place }
    ensures { Reach slots.now room held.now place result }
{
    let last = slots.len() - 1;
    for i in place..last {
        let there = held[i];
        if room <= there as usize {
            return place;
        }
        if (there as u32) < slots[i + 1] - slots[i] {
            return i + 1;
        }
    }
    if room <= held[last] as usize {
        return place;
    }
    slots.len()
}

// One more is held just after each arrival from a place on, up to an end.
fn raise(held: &mut [u16], place: usize, end: usize)
    requires { Raisable held.old place end }
    ensures { Raised place end held.old held.new }
{
    for i in place..end {
        held[i] += 1;
    }
}

// Keeps the packet at a place if it fits with those kept already. The entries are 1 and 0 and no `bool`s, as the model's `plan_kept` has them.
fn keep_if_fits(slots: &[u32], room: usize, held: &mut [u16], kept: &mut [u8], place: usize)
    requires keepable { Keepable slots.now room kept.old }
    requires held_as { HeldAs slots.now room kept.old held.old }
    requires place_in_bounds { place < length kept.old }
    ensures held_as_2 { HeldAs slots.now room kept.new held.new }
    ensures taken_in_turn { TakenInTurn slots.now room (place ∷ []) kept.old kept.new }
{
    if kept[place] == 1 {
        return;
    }
    let end = reach(slots, room, held, place);
    if place < end {
        raise(held, place, end);
        kept[place] = 1;
    }
}

// Takes the packets at the places of `order` in turn, and keeps each that fits with those kept already. Not put in line with the run: among all that a run
// holds, `reach` has too few registers, and a plan took up to twice as long.
#[inline(never)]
fn keep_in_turn(slots: &[u32], room: usize, order: &[u16], held: &mut [u16], kept: &mut [u8])
    requires keepable { Keepable slots.now room kept.old }
    requires held_as { HeldAs slots.now room kept.old held.old }
    requires inside { Inside (length slots.now) order.now }
    ensures { TakenInTurn slots.now room order.now kept.old kept.new }
{
    for place in order {
        keep_if_fits(slots, room, held, kept, *place as usize);
    }
}

// Keeps the plan's packets of an accepted trace: they are taken by falling value, older first among equals, and each is kept that fits with those kept already.
fn keep_all(slots: &[u32], values: &[u32], room: usize, kept: &mut [u8])
    requires accepted { Accepted value_ok slots.now values.now room (lists_of slots.now slots.now slots.now) }
    requires kept_len { length kept.old ≡ length slots.now }
    ensures { kept.new ≡ plan_kept room (arrivals slots.now values.now) }
{
    let mut order = [0u16; Record::PACKETS];
    let mut held = [0u16; Record::PACKETS];
    let n = slots.len();
    kept.fill(0);
    by_falling_value(values, &mut order[..n]);
    keep_in_turn(slots, room, &order[..n], &mut held[..n], kept);
}

// The test of the plan's trace. Where it accepts and `kept` has an entry for each packet, `kept` tells then which packets the plan keeps; else it is as before.
pub fn keep(
    slots: &[u32],
    values: &[u32],
    room: usize,
    fates: &[u32],
    whens: &[u32],
    bys: &[u32],
    kept: &mut [u8],
) -> Result<(), Refusal>
    ensures { TestsAndKeeps slots.now values.now (lists_of fates.now whens.now bys.now) kept room result }
{
    trace::check_plain(slots, values, room, fates, whens, bys)?;
    if kept.len() == slots.len() {
        keep_all(slots, values, room, kept);
    }
    Ok(())
}
