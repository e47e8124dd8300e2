// The marking of a slot's hi packets, on a window that lies within its lists.
ghost use Rattle.std.specs.Prelude.{◌≡◌, not, ◌&&◌, min, ◌+◌, ◌-◌, ◌≤◌, eqb};
ghost use Rattle.model.specs.Packets.{slot_of};
ghost use Rattle.model.specs.Policies.MF.{is_marked, mark_down, marks_after};
ghost use Rattle.model.specs.Lent.{was, left};
ghost use Rattle.steps.specs.Window.{window_of, Within};
ghost use Rattle.mf_marks.specs.Mark.{older_than, marked_at, beside};

use crate::mark_of;
use entry::{place_of, put, slot_of};
use model::{Marking, Packet, PacketNumber, Slot};
use steps::Window;

// An unmarked lo packet.
fn takes_mark(marks: &[u32], p: Packet, lo: u32) -> bool
    ensures { result ≡ (eqb p.value lo && not (is_marked marks.now p)) }
{
    p.value == lo && mark_of(marks, p).0 == 0
}

// A hi packet that arrived in this slot.
fn gives_marks(slots: &[u32], p: Packet, hi: u32, slot: Slot) -> bool
    ensures { result ≡ (eqb p.value hi && eqb (slot_of slots.now p.number).0 slot.0) }
{
    p.value == hi && slot_of(slots, p.number).0 == slot.0
}

// Marks up to r unmarked lo packets of the first n from `head` on, stepping down from the newest of them.
fn mark_down(
    numbers: &[u32],
    values: &[u32],
    marks: &mut [u32],
    head: usize,
    n: usize,
    lo: u32,
    r: usize,
    by: PacketNumber,
)
    requires { Within (record { head = head; tail = head + n }) numbers.now values.now }
    ensures { left marks ≡ mark_down lo r by (older_than numbers.now values.now head n) (was marks) }
{
    let mut left = r;
    for i in (0..n).rev() {
        if left == 0 {
            return;
        }
        let k = head + i;
        let number = numbers[k];
        let value = values[k];
        let p = Packet {
            number: PacketNumber(number),
            value,
        };
        if takes_mark(marks, p, lo) {
            put(marks, place_of(p.number), by.0);
            left -= 1;
        }
    }
}

// The packet at place i from `head` on marks those before it, if it is a hi packet that arrived in this slot.
fn mark_by(
    numbers: &[u32],
    values: &[u32],
    slots: &[u32],
    marks: &mut [u32],
    head: usize,
    i: usize,
    marking: Marking,
    slot: Slot,
)
    requires { Within (record { head = head; tail = head + i + 1 }) numbers.now values.now }
    ensures { left marks ≡ marked_at marking slots.now slot numbers.now values.now head i (was marks) }
{
    let k = head + i;
    let number = numbers[k];
    let value = values[k];
    let p = Packet {
        number: PacketNumber(number),
        value,
    };
    if gives_marks(slots, p, marking.hi, slot) {
        mark_down(
            numbers, values, marks, head, i, marking.lo, marking.r, p.number,
        );
    }
}

// How many of the first room - 1 positions are held.
fn positions(w: Window, room: usize) -> usize
    requires { w.head ≤ w.tail }
    ensures { result ≡ min (room - 1) (w.tail - w.head) }
{
    room.saturating_sub(1).min(w.tail - w.head)
}

// The marks after a slot's arrivals: each hi packet among the first room - 1 that arrived in this slot marks.
pub fn mark(
    numbers: &[u32],
    values: &[u32],
    slots: &[u32],
    marks: &mut [u32],
    w: Window,
    room: usize,
    marking: Marking,
    slot: Slot,
)
    requires { Within w numbers.now values.now }
    ensures { left marks ≡ marks_after room marking slots.now slot (beside (window_of w numbers.now values.now) (was marks)) }
{
    let head = w.head;
    let n = positions(w, room);
    for i in 0..n {
        mark_by(numbers, values, slots, marks, head, i, marking, slot);
    }
}
