// The one run of every policy over an accepted trace. What an arrival does, and what the ends of slots do, is the policy's.
#![tactic(auto)]

mod run;

ghost use Rattle.std.specs.Prelude.{◌≡◌, [], Ok, List, length};
ghost use Rattle.model.specs.declared.Packet.{Packet};
ghost use Rattle.model.specs.Calls.{ran};
ghost use Rattle.model.specs.Course.{Policy, course, first, slot_ends};
ghost use Rattle.model.specs.Lent.{lists_before, lists_after};
ghost use Rattle.model.specs.Packets.{arrivals, slots_until};
ghost use Rattle.model.specs.Record.{Lists, entered};
ghost use Rattle.laws.specs.Recorded.{Sized};
ghost use Rattle.steps.specs.Calls.{Ready, outcome};
ghost use Rattle.steps.specs.Run.{Runnable};
ghost use Rattle.steps.specs.Step.{arrival};
ghost use Rattle.runs_loop.specs.Done.{ArrivesIn, EndsIn};

use crate::run::run;
use model::{Packet, Slot, Totals};
use steps::Window;
use totals::totals;

// A policy whose queue is a window, with what it keeps beside. A window that does not lie within its lists is handed back, and nothing is written.
pub trait Policy: Drop {
    // What it holds: the queue, with what is kept beside.
    ghost State: { Type 0 };

    // What it is, as model says it.
    ghost policy: { Self → Policy State };

    // A queue, with what the policy keeps now.
    ghost state: { Self → List Packet → State };

    // An arrival; where no place is free all is as before.
    fn arrive(
        &self,
        numbers: &mut [u32],
        values: &mut [u32],
        fates: &mut [u32],
        whens: &mut [u32],
        bys: &mut [u32],
        w: Window,
        slot: Slot,
        p: Packet,
    ) -> Window
        ensures { ArrivesIn (state self.now) w result numbers values fates whens bys ((policy self.now).arrive (arrival slot p)) };

    // The ends of the slots from `from` on, up to slot `until`.
    fn end_slots(
        &mut self,
        numbers: &mut [u32],
        values: &mut [u32],
        fates: &mut [u32],
        whens: &mut [u32],
        bys: &mut [u32],
        w: Window,
        from: Slot,
        until: Slot,
    ) -> Window
        ensures same { policy self.new ≡ policy self.old }
        ensures ends { EndsIn (state self.old) (state self.new) w result numbers values fates whens bys (slot_ends (policy self.old) (slots_until from until) from) };

    // What it holds is the queue.
    ghost held: { (s : Self) (queue : List Packet) → (policy s).held (state s queue) ≡ queue };
}

// A trace on which a policy can run, into any three lists as long as the trace.
#[derive(Drop)]
pub struct Accepted<'a, P: Policy> {
    pub slots: &'a [u32],
    pub values: &'a [u32],
    pub policy: P,
    ghost runnable: { Runnable (P.policy policy) (P.state policy []) slots.now values.now },
    ghost ready: { ∥ ((lists : Lists) → Sized (length slots.now) lists → Ready (P.policy policy) (P.state policy []) slots.now values.now lists) ∥₁ },
}

// A policy's run over an accepted trace, and its totals.
pub fn finish<P: Policy>(
    accepted: Accepted<P>,
    fates: &mut [u32],
    whens: &mut [u32],
    bys: &mut [u32],
) -> Totals
    ensures written { let accepted = accepted.entry in
        lists_after fates whens bys ≡ entered (course (P.policy accepted.policy) first (P.state accepted.policy []) (arrivals accepted.slots.now accepted.values.now)) (lists_before fates whens bys) }
    ensures ran { let accepted = accepted.entry in
        let slots = accepted.slots.now in
        let values = accepted.values.now in
        Sized (length slots) (lists_before fates whens bys)
        → outcome (Ok result) (lists_after fates whens bys) ≡ ran slots values (course (P.policy accepted.policy) first (P.state accepted.policy []) (arrivals slots values)) }
{
    let Accepted {
        slots,
        values,
        policy,
    } = accepted;
    let most = run(slots, values, policy, fates, whens, bys);
    totals(values, fates, most)
}
