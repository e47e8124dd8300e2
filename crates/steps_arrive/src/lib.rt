// An arrival, and a packet held, for all input: a window that does not lie within its lists, or has no place free, is handed back, and nothing is written.
#![tactic(auto)]

ghost use Rattle.std.specs.Prelude.{◌≡◌};
ghost use Rattle.model.specs.Course.{held_if};
ghost use Rattle.laws.specs.AtOnce.{at_once};
ghost use Rattle.steps.specs.Step.{arrival};
ghost use Rattle.steps.specs.Lent.{lent_before, lent_after};
ghost use Rattle.steps_arrive.specs.Arrive.{place_in, holding, Moves, arriving_in};

use entry::enter;
use model::{Fate, Packet, Rule, Slot};
use queue::{Choice, decide};
use steps::Window;

mod held;

// Whether a window lies within two lists of these lengths, which are equally long, and not all their places are in use.
fn has_place(numbers: usize, values: usize, w: Window) -> bool
    ensures { result ≡ place_in w numbers values }
{
    if w.tail < w.head {
        return false;
    }
    if values < w.tail {
        return false;
    }
    if numbers != values {
        return false;
    }
    w.tail - w.head < values
}

// Holds a packet.
pub fn hold(numbers: &mut [u32], values: &mut [u32], w: Window, p: Packet) -> Window
    ensures { lent_after result numbers values ≡ holding p (lent_before w numbers values) }
{
    if !has_place(numbers.len(), values.len(), w) {
        return w;
    }
    held::hold(numbers, values, w, p)
}

// An arrival that is held, or rejected.
pub fn hold_or_reject(
    numbers: &mut [u32],
    values: &mut [u32],
    fates: &mut [u32],
    whens: &mut [u32],
    bys: &mut [u32],
    w: Window,
    keep: bool,
    slot: Slot,
    p: Packet,
) -> Window
    ensures { Moves w result numbers values fates whens bys (arriving_in (held_if keep) (arrival slot p)) }
{
    if !has_place(numbers.len(), values.len(), w) {
        return w;
    }
    let holds = keep;
    if holds {
        return held::hold(numbers, values, w, p);
    }
    enter(fates, whens, bys, p.number, Fate::Rejected, slot, p.number);
    w
}

// An arrival under a rule.
pub fn arrive(
    numbers: &mut [u32],
    values: &mut [u32],
    fates: &mut [u32],
    whens: &mut [u32],
    bys: &mut [u32],
    w: Window,
    room: usize,
    rule: Rule,
    slot: Slot,
    p: Packet,
) -> Window
    ensures { Moves w result numbers values fates whens bys (arriving_in (at_once room rule) (arrival slot p)) }
{
    if !has_place(numbers.len(), values.len(), w) {
        return w;
    }
    let head = w.head;
    let tail = w.tail;
    match decide(&values[head..tail], room, rule, p.value) {
        Choice::Hold => held::hold(numbers, values, w, p),
        Choice::Reject => {
            enter(fates, whens, bys, p.number, Fate::Rejected, slot, p.number);
            w
        }
        Choice::Lose(place, kind) => held::replace(
            numbers, values, fates, whens, bys, w, place, kind, slot, p,
        ),
    }
}
