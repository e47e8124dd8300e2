// What every run on a trace is made of: its queue and the ends of slots. A window that does not lie within its lists is handed back, and nothing is written.
#![tactic(auto)]

ghost use Rattle.std.specs.Prelude.{◌≡◌, []};
ghost use Rattle.model.specs.Lent.{lists_after, lists_before};
ghost use Rattle.steps.specs.Window.{Oldest};
ghost use Rattle.steps.specs.Guarded.{Guarded, lies_within};
ghost use Rattle.steps.specs.Lent.{queue_in, moved, on, sending_in, lent};

use checks::ranges::ROOM;
use entry::enter;
use model::{Fate, Packet, PacketNumber, Slot};

mod held;

// The queue of a trace run: the entries from `head` up to `tail` of two lent lists, numbers and values, oldest first. Nothing counts beside it: what is
// held is what stands there.
#[derive(Clone, Copy)]
pub struct Window {
    pub head: usize,
    pub tail: usize,
}

// The places of the two lists that hold the queue: with twice the greatest room it moves to the start of its lists at most once in so many arrivals.
pub const PLACES: usize = 2 * ROOM;

// Whether a window lies within its two lists, which are equally long.
#[tactic(auto, unfolding(crate::specs::Guarded::lies_within))]
pub fn lies_within(numbers: &[u32], values: &[u32], w: Window) -> bool
    ensures { result ≡ lies_within w numbers.now values.now }
{
    w.head <= w.tail && w.tail <= values.len() && numbers.len() == values.len()
}

// What the end of a slot answers: the oldest packet, or none, which is idle; none too where the window does not lie within its lists.
pub fn oldest(numbers: &[u32], values: &[u32], w: Window) -> Option<Packet>
    ensures { Guarded (lies_within w numbers.now values.now) (Oldest (queue_in (lent w numbers.now values.now)) result) (Oldest [] result) }
{
    if !lies_within(numbers, values, w) {
        return None;
    }
    held::oldest(numbers, values, w.head, w.tail)
}

// The ends of the slots from `from` on, up to slot `until`: at each the oldest packet is sent. On idle the run goes straight on.
pub fn send_until(
    numbers: &[u32],
    values: &[u32],
    fates: &mut [u32],
    whens: &mut [u32],
    bys: &mut [u32],
    w: Window,
    from: Slot,
    until: Slot,
) -> Window
    ensures { moved (lent result numbers.now values.now) (lists_after fates whens bys) ≡ on (sending_in from until) (moved (lent w numbers.now values.now) (lists_before fates whens bys)) }
{
    if !lies_within(numbers, values, w) {
        return w;
    }
    let mut head = w.head;
    let tail = w.tail;
    for slot in from.0..until.0 {
        let Some(p) = held::oldest(numbers, values, head, tail) else {
            return Window { head, tail };
        };
        enter(
            fates,
            whens,
            bys,
            p.number,
            Fate::Sent,
            Slot(slot),
            PacketNumber(0),
        );
        head += 1;
    }
    Window { head, tail }
}
