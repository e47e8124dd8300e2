// The ends of slots under MF: the slot's hi packets mark, the head's mark flushes, and the head is sent.
#![tactic(auto)]

ghost use Rattle.mf_flush.specs.Flush.{MovesMF, ending_in};

use model::{Marking, Slot};
use steps::{Window, lies_within};

mod ends;
mod sift;

// The ends of the slots from `from` on, up to slot `until`. A window that does not lie within its lists is handed back, and nothing is written.
pub fn end_slots(
    numbers: &mut [u32],
    values: &mut [u32],
    slots: &[u32],
    marks: &mut [u32],
    fates: &mut [u32],
    whens: &mut [u32],
    bys: &mut [u32],
    w: Window,
    room: usize,
    marking: Marking,
    from: Slot,
    until: Slot,
) -> Window
    ensures { MovesMF w result numbers values marks fates whens bys (ending_in room marking slots.now from until) }
{
    if !lies_within(numbers, values, w) {
        return w;
    }
    ends::end_slots(
        numbers, values, slots, marks, fates, whens, bys, w, room, marking, from, until,
    )
}
