// What is done to a window that lies within its two lists.
ghost use Rattle.std.specs.Prelude.{◌≡◌, ◌+◌, ◌-◌, ◌<◌, length};
ghost use Rattle.queue.specs.Choose.{applied};
ghost use Rattle.steps.specs.Window.{Within};
ghost use Rattle.steps.specs.Step.{arrival};
ghost use Rattle.steps.specs.Lent.{lent_before, lent_after};
ghost use Rattle.steps_arrive.specs.Arrive.{Opened, held_in, lost_in, Moves, deciding_by};

use entry::enter;
use model::{LossKind, Packet, PacketNumber, Slot};
use queue::{Choice, slide};
use steps::Window;

// The window with a free place behind it: where it has come to the end of the lists it moves to their start.
fn freed(numbers: &mut [u32], values: &mut [u32], w: Window) -> Window
    requires within { Within w numbers.old values.old }
    requires head_in_bounds { w.tail - w.head < length values.old }
    ensures { Opened (lent_before w numbers values) (lent_after result numbers values) }
{
    let head = w.head;
    let tail = w.tail;
    let free = tail < values.len();
    if free {
        return w;
    }
    slide(numbers, head, tail, 0);
    slide(values, head, tail, 0);
    let held = tail - head;
    Window {
        head: 0,
        tail: held,
    }
}

// Holds a packet: it goes behind the window, which moves first where it has come to the end of its lists.
pub fn hold(numbers: &mut [u32], values: &mut [u32], w: Window, p: Packet) -> Window
    requires within { Within w numbers.old values.old }
    requires head_in_bounds { w.tail - w.head < length values.old }
    ensures { lent_after result numbers values ≡ held_in p (lent_before w numbers values) }
{
    let o = freed(numbers, values, w);
    let head = o.head;
    let tail = o.tail;
    numbers[tail] = p.number.0;
    values[tail] = p.value;
    let end = tail + 1;
    Window { head, tail: end }
}

// Takes the packet at a place out of the window.
pub fn lose(numbers: &mut [u32], values: &mut [u32], w: Window, place: usize) -> Window
    requires within { Within w numbers.old values.old }
    requires place_bound { w.head + place < w.tail }
    ensures { lent_after result numbers values ≡ lost_in place (lent_before w numbers values) }
{
    let at = w.head + place;
    let tail = w.tail;
    slide(numbers, at + 1, tail, at);
    slide(values, at + 1, tail, at);
    let end = tail - 1;
    Window {
        head: w.head,
        tail: end,
    }
}

// The packet at a place is lost to the arrival, which is held.
pub fn replace(
    numbers: &mut [u32],
    values: &mut [u32],
    fates: &mut [u32],
    whens: &mut [u32],
    bys: &mut [u32],
    w: Window,
    place: usize,
    kind: LossKind,
    slot: Slot,
    p: Packet,
) -> Window
    requires within { Within w numbers.old values.old }
    requires place_bound { w.head + place < w.tail }
    ensures { Moves w result numbers values fates whens bys (deciding_by (applied (Choice.Lose place kind)) (arrival slot p)) }
{
    let at = w.head + place;
    let number = numbers[at];
    let lost = PacketNumber(number);
    enter(fates, whens, bys, lost, kind.into(), slot, p.number);
    let rest = lose(numbers, values, w, place);
    hold(numbers, values, rest, p)
}
