// Plain greedy and PG as a policy: a rule decides each arrival, and the ends of slots only send.
ghost use Rattle.std.specs.Prelude.{List, ◌≤◌, refl};
ghost use Rattle.model.specs.declared.Packet.{Packet};
ghost use Rattle.model.specs.Course.{by_rule};
ghost use Rattle.laws.specs.AtOnce.{at_once};

use model::{Packet, Rule, Slot};
use runs_loop::Policy;
use steps::{Window, send_until};
use steps_arrive::hold;

// A rule with its room. Nothing is kept beside the queue.
#[derive(Drop)]
pub struct ByRule {
    pub room: usize,
    pub rule: Rule,
    ghost le_room: { 1 ≤ room },
}

impl Policy for ByRule {
    ghost State = { List Packet };

    ghost policy = { λ s. by_rule (at_once s.room s.rule) };

    ghost state = { λ s queue. queue };

    // A packet that finds nothing held is held at once: room is at least 1.
    fn arrive(
        &self,
        numbers: &mut [u32],
        values: &mut [u32],
        fates: &mut [u32],
        whens: &mut [u32],
        bys: &mut [u32],
        w: Window,
        slot: Slot,
        p: Packet,
    ) -> Window {
        if w.head == w.tail {
            return hold(numbers, values, w, p);
        }
        steps_arrive::arrive(
            numbers, values, fates, whens, bys, w, self.room, self.rule, slot, p,
        )
    }

    fn end_slots(
        &mut self,
        numbers: &mut [u32],
        values: &mut [u32],
        fates: &mut [u32],
        whens: &mut [u32],
        bys: &mut [u32],
        w: Window,
        from: Slot,
        until: Slot,
    ) -> Window {
        send_until(numbers, values, fates, whens, bys, w, from, until)
    }

    ghost held = { λ s queue. refl };
}
