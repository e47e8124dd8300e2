// What is said of each call: its numbers go into the running sum, one after another.
ghost use Rattle.std.specs.Prelude.{◌<◌};

use model::{PortReply, Reply};
use port::Port;

const MODULUS: u64 = 2_147_483_647;

const FACTOR: u64 = 1_000_003;

// The running sum of a batch.
#[derive(Drop)]
pub struct Sum {
    so_far: u64,
    ghost in_range: { so_far < 2_147_483_647 },
}

impl Sum {
    pub fn new() -> Sum {
        Sum { so_far: 1 }
    }

    pub fn so_far(&self) -> u64 {
        self.so_far
    }

    pub fn say(&mut self, x: u32) {
        self.so_far = (self.so_far * FACTOR + x as u64 + 1) % MODULUS;
    }

    pub fn say_list(&mut self, list: &[u32]) {
        for x in list {
            self.say(*x);
        }
    }

    // A call on a trace: its number and place, and its totals, which are 0 where there are none.
    pub fn say_reply(&mut self, reply: Reply) {
        let t = reply.totals;
        self.say(reply.number);
        self.say(reply.place);
        for tally in [
            t.arrived,
            t.sent,
            t.rejected,
            t.pushed_out,
            t.preempted,
            t.flushed,
        ] {
            self.say(tally.count);
            self.say(tally.value);
        }
        self.say(t.most_held);
    }

    // The making of a port: its number and place.
    pub fn say_making(&mut self, reply: PortReply) {
        self.say(reply.number);
        self.say(reply.place);
    }

    // A live call: its number and place, the number given, and the packet lost or sent.
    pub fn say_live(&mut self, reply: PortReply) {
        self.say_making(reply);
        self.say(reply.given.0);
        self.say(reply.packet.number.0);
        self.say(reply.packet.value);
    }

    // The numbers of a port, then its places.
    pub fn say_whole(&mut self, port: &Port) {
        self.say(u32::try_from(port.room).unwrap_or(u32::MAX));
        self.say(port.beta.num);
        self.say(port.beta.den);
        self.say(port.last.0);
        self.say(u32::try_from(port.held).unwrap_or(u32::MAX));
        self.say_list(&port.values);
        self.say_list(&port.numbers);
    }
}
