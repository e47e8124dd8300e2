// The ends of slots under MF, on a window that lies within its lists.
ghost use Rattle.model.specs.Lent.{lists_after, lists_before};
ghost use Rattle.steps.specs.Window.{Within};
ghost use Rattle.steps.specs.Lent.{moved, lent};
ghost use Rattle.mf_flush.specs.Flush.{mf_from, mf_to, Sends, EndedIn, EndsIn};

use crate::sift::{flush, head_mark};
use entry::enter;
use mf_marks::mark;
use model::{Fate, Marking, PacketNumber, Slot};
use steps::{Window, oldest};

// The oldest packet, if any, is sent.
fn send(
    numbers: &[u32],
    values: &[u32],
    fates: &mut [u32],
    whens: &mut [u32],
    bys: &mut [u32],
    w: Window,
    slot: Slot,
) -> Window
    requires { Within w numbers.now values.now }
    ensures { Sends slot (moved (lent w numbers.now values.now) (lists_before fates whens bys)) (moved (lent result numbers.now values.now) (lists_after fates whens bys)) }
{
    let head = w.head;
    let tail = w.tail;
    let Some(p) = oldest(numbers, values, w) else {
        return w;
    };
    enter(
        fates,
        whens,
        bys,
        p.number,
        Fate::Sent,
        slot,
        PacketNumber(0),
    );
    let next = head + 1;
    Window { head: next, tail }
}

// The end of a slot: the slot's hi packets mark, the head's mark flushes, and the head is sent.
fn end_slot(
    numbers: &mut [u32],
    values: &mut [u32],
    slots: &[u32],
    marks: &mut [u32],
    fates: &mut [u32],
    whens: &mut [u32],
    bys: &mut [u32],
    w: Window,
    room: usize,
    marking: Marking,
    slot: Slot,
) -> Window
    requires { Within w numbers.old values.old }
    ensures { EndedIn room marking slots.now slot (mf_from w numbers values marks fates whens bys) (mf_to result numbers values marks fates whens bys) }
{
    mark(numbers, values, slots, marks, w, room, marking, slot);
    let m = head_mark(numbers, values, marks, w);
    let left = flush(numbers, values, marks, fates, whens, bys, w, m, slot);
    send(numbers, values, fates, whens, bys, left, slot)
}

// The ends of the slots from `from` on, up to slot `until`. On idle the run goes straight on.
pub fn end_slots(
    numbers: &mut [u32],
    values: &mut [u32],
    slots: &[u32],
    marks: &mut [u32],
    fates: &mut [u32],
    whens: &mut [u32],
    bys: &mut [u32],
    w: Window,
    room: usize,
    marking: Marking,
    from: Slot,
    until: Slot,
) -> Window
    requires { Within w numbers.old values.old }
    ensures { EndsIn room marking slots.now from until (mf_from w numbers values marks fates whens bys) (mf_to result numbers values marks fates whens bys) }
{
    let mut held = w;
    for slot in from.0..until.0 {
        if held.tail <= held.head {
            return held;
        }
        held = end_slot(
            numbers,
            values,
            slots,
            marks,
            fates,
            whens,
            bys,
            held,
            room,
            marking,
            Slot(slot),
        );
    }
    held
}
