// The offline plan as a policy: the kept packets are held, all others rejected, and the ends of slots only send.
ghost use Rattle.std.specs.Prelude.{List, ◌≡◌, eqb, refl};
ghost use Rattle.model.specs.declared.Packet.{Packet};
ghost use Rattle.model.specs.Course.{by_rule};
ghost use Rattle.model.specs.Policies.Plan.{kept_of, kept_rule};

use entry::place_of;
use model::{Packet, PacketNumber, Slot};
use runs_loop::Policy;
use steps::Window;

// The plan's list: for each packet of the trace 1 if it is kept, else 0. Nothing is kept beside the queue.
#[derive(Clone, Copy)]
pub struct Kept<'a> {
    pub kept: &'a [u8],
}

// Whether the plan keeps a packet.
fn is_kept(kept: &[u8], number: PacketNumber) -> bool
    ensures { result ≡ eqb (kept_of kept.now number) 1 }
{
    kept.get(place_of(number)).copied().unwrap_or(0) == 1
}

impl Policy for Kept<'_> {
    ghost State = { List Packet };

    ghost policy = { λ s. by_rule (kept_rule s.kept.now) };

    ghost state = { λ s queue. queue };

    fn arrive(
        &self,
        numbers: &mut [u32],
        values: &mut [u32],
        fates: &mut [u32],
        whens: &mut [u32],
        bys: &mut [u32],
        w: Window,
        slot: Slot,
        p: Packet,
    ) -> Window {
        let keep = is_kept(self.kept, p.number);
        steps_arrive::hold_or_reject(numbers, values, fates, whens, bys, w, keep, slot, p)
    }

    fn end_slots(
        &mut self,
        numbers: &mut [u32],
        values: &mut [u32],
        fates: &mut [u32],
        whens: &mut [u32],
        bys: &mut [u32],
        w: Window,
        from: Slot,
        until: Slot,
    ) -> Window {
        steps::send_until(numbers, values, fates, whens, bys, w, from, until)
    }

    ghost held = { λ s queue. refl };
}
