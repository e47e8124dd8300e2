// MF's flush: the held packets with a mark at most the head's go, and the others close up in order.
ghost use Rattle.std.specs.Prelude.{◌≡◌, not, ◌&&◌, eqb, leb};
ghost use Rattle.model.specs.Policies.MF.{head_mark};
ghost use Rattle.steps.specs.Window.{window_of, Within};
ghost use Rattle.steps.specs.Lent.{moved_from, moved_to};
ghost use Rattle.mf_flush.specs.Flush.{Flushes};

use entry::enter;
use mf_marks::mark_of;
use model::{Fate, Packet, PacketNumber, Slot};
use steps::Window;

// A packet with this mark is flushed under a head with mark m.
fn goes_with(mark: PacketNumber, m: PacketNumber) -> bool
    ensures { result ≡ (not (eqb mark.0 0) && leb mark.0 m.0) }
{
    mark.0 != 0 && mark.0 <= m.0
}

// The head's mark, 0 for none, as the model's `head_mark` has it.
pub fn head_mark(numbers: &[u32], values: &[u32], marks: &[u32], w: Window) -> PacketNumber
    requires { Within w numbers.now values.now }
    ensures { result ≡ head_mark marks.now (window_of w numbers.now values.now) }
{
    let head = w.head;
    if head < w.tail {
        let number = numbers[head];
        let value = values[head];
        let oldest = Packet {
            number: PacketNumber(number),
            value,
        };
        mark_of(marks, oldest)
    } else {
        PacketNumber(0)
    }
}

// One pass over the window: what goes is entered, what stays moves up to the packet that stays before it.
fn sift(
    numbers: &mut [u32],
    values: &mut [u32],
    marks: &[u32],
    fates: &mut [u32],
    whens: &mut [u32],
    bys: &mut [u32],
    w: Window,
    m: PacketNumber,
    slot: Slot,
) -> Window
    requires { Within w numbers.old values.old }
    ensures { Flushes slot m marks.now (moved_from w numbers values fates whens bys) (moved_to result numbers values fates whens bys) }
{
    let head = w.head;
    let tail = w.tail;
    let mut to = head;
    for from in head..tail {
        let number = numbers[from];
        let value = values[from];
        let p = Packet {
            number: PacketNumber(number),
            value,
        };
        let mark = mark_of(marks, p);
        if goes_with(mark, m) {
            enter(fates, whens, bys, p.number, Fate::Flushed, slot, mark);
            continue;
        }
        numbers[to] = p.number.0;
        values[to] = p.value;
        to += 1;
    }
    Window { head, tail: to }
}

// The flush under a head with mark m; nothing goes under a head with none.
pub fn flush(
    numbers: &mut [u32],
    values: &mut [u32],
    marks: &[u32],
    fates: &mut [u32],
    whens: &mut [u32],
    bys: &mut [u32],
    w: Window,
    m: PacketNumber,
    slot: Slot,
) -> Window
    requires { Within w numbers.old values.old }
    ensures { Flushes slot m marks.now (moved_from w numbers values fates whens bys) (moved_to result numbers values fates whens bys) }
{
    if m.0 == 0 {
        return w;
    }
    sift(numbers, values, marks, fates, whens, bys, w, m, slot)
}
