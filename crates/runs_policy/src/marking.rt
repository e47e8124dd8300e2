// MF as a policy: arrivals go as in plain greedy, and at the end of a slot its hi packets mark, the head's mark flushes, and the head is sent.
ghost use Rattle.std.specs.Prelude.{List, refl};
ghost use Rattle.model.specs.declared.Packet.{Packet};
ghost use Rattle.model.specs.Policies.MF.{Marked, mf_policy};
ghost use Rattle.mf_marks.specs.Mark.{beside};

use model::{Marking, Packet, Rule, Slot};
use runs_loop::Policy;
use steps::Window;

// MF with its room, on a trace with these slots. It keeps a mark for each packet of the trace.
#[derive(Drop)]
pub struct MarkAndFlush<'a> {
    pub room: usize,
    pub marking: Marking,
    pub slots: &'a [u32],
    pub marks: &'a mut [u32],
}

impl Policy for MarkAndFlush<'_> {
    ghost State = { Marked };

    ghost policy = { λ s. mf_policy s.room s.marking s.slots.now };

    ghost state = { λ s queue. beside queue s.marks.now };

    fn arrive(
        &self,
        numbers: &mut [u32],
        values: &mut [u32],
        fates: &mut [u32],
        whens: &mut [u32],
        bys: &mut [u32],
        w: Window,
        slot: Slot,
        p: Packet,
    ) -> Window {
        let rule = Rule::Greedy;
        steps_arrive::arrive(
            numbers, values, fates, whens, bys, w, self.room, rule, slot, p,
        )
    }

    fn end_slots(
        &mut self,
        numbers: &mut [u32],
        values: &mut [u32],
        fates: &mut [u32],
        whens: &mut [u32],
        bys: &mut [u32],
        w: Window,
        from: Slot,
        until: Slot,
    ) -> Window {
        mf_flush::end_slots(
            numbers,
            values,
            self.slots,
            self.marks,
            fates,
            whens,
            bys,
            w,
            self.room,
            self.marking,
            from,
            until,
        )
    }

    ghost held = { λ s queue. refl };
}
