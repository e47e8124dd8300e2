// MF's marks: one number for each packet of the trace, that of the packet that marked it, 0 for none.
#![tactic(auto)]

ghost use Rattle.std.specs.Prelude.{◌≡◌};
ghost use Rattle.model.specs.Policies.MF.{mark_of, marks_after};
ghost use Rattle.mf_marks.specs.Mark.{Marks};

use entry::number_of;
use model::{Marking, Packet, PacketNumber, Slot};
use steps::{Window, lies_within};

mod step;

// The number of the packet that marked a packet, 0 for none: marks are plain numbers in a lent list, and the model's `mark_of` has 0 for none.
pub fn mark_of(marks: &[u32], p: Packet) -> PacketNumber
    ensures { result ≡ mark_of marks.now p }
{
    number_of(marks, p.number)
}

// The marks after a slot's arrivals; as before, where the window does not lie within its lists.
pub fn mark(
    numbers: &[u32],
    values: &[u32],
    slots: &[u32],
    marks: &mut [u32],
    w: Window,
    room: usize,
    marking: Marking,
    slot: Slot,
)
    ensures { Marks w numbers.now values.now marks (marks_after room marking slots.now slot) }
{
    if !lies_within(numbers, values, w) {
        return;
    }
    step::mark(numbers, values, slots, marks, w, room, marking, slot);
}
