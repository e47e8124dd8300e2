// A live port fed events by value, and all that it says mixed into one number.
ghost use Rattle.std.specs.Prelude.{◌≡◌, ◌<◌, ◌^◌};
ghost use Rattle.model.specs.Answers.{of_arrival, of_slot};
ghost use Rattle.port.specs.State.{state_of};
ghost use Rattle.host.specs.Live.{mixed_in, heard};

use model::{ArrivalAnswer, Packet, PortReply, Refusal};
use port::Port;
use replies::{of_arrival, of_slot};

// One answer's numbers mixed in.
fn mix(sum: u64, reply: PortReply) -> u64
    requires { sum < 2 ^ 32 }
    ensures { result ≡ mixed_in sum reply }
{
    (sum * 31
        + reply.number as u64
        + reply.place as u64
        + reply.given.0 as u64 * 3
        + reply.packet.number.0 as u64 * 5
        + reply.packet.value as u64 * 7)
        % 4_294_967_296
}

fn mix_arrival(sum: u64, answer: Result<ArrivalAnswer, Refusal>) -> u64
    requires { sum < 2 ^ 32 }
    ensures { result ≡ mixed_in sum (of_arrival answer) }
{
    mix(sum, of_arrival(answer))
}

fn mix_slot(sum: u64, answer: Result<Option<Packet>, Refusal>) -> u64
    requires { sum < 2 ^ 32 }
    ensures { result ≡ mixed_in sum (of_slot answer) }
{
    mix(sum, of_slot(answer))
}

// 0 is an end of slot, any other number an arrival of that value.
pub fn feed(port: Port, events: &[u32]) -> u64
    ensures { result ≡ heard (state_of port) 0 events.now }
{
    let mut left = port;
    let mut sum = 0;
    for event in events {
        let ends = *event == 0;
        if ends {
            let end = left.end_of_slot();
            left = end.port;
            sum = mix_slot(sum, end.answer);
        } else {
            let arrival = left.arrive(*event);
            left = arrival.port;
            sum = mix_arrival(sum, arrival.answer);
        }
    }
    sum
}
