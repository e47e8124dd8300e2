// What is read of a window that lies within its two lists.
ghost use Rattle.std.specs.Prelude.{◌≡◌};
ghost use Rattle.steps.specs.Window.{window_of, Within, oldest_of};

use model::{Packet, PacketNumber};

// What the end of a slot answers: the oldest packet, or none, which is idle.
pub fn oldest(numbers: &[u32], values: &[u32], head: usize, tail: usize) -> Option<Packet>
    requires { Within (record { head = head; tail = tail }) numbers.now values.now }
    ensures { result ≡ oldest_of (window_of (record { head = head; tail = tail }) numbers.now values.now) }
{
    let some = head < tail;
    if some {
        let number = numbers[head];
        let value = values[head];
        Some(Packet {
            number: PacketNumber(number),
            value,
        })
    } else {
        None
    }
}
