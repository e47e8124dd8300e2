// The live PG port, a value, with the limits that belong to it. What its calls mean stands over plain lists in crate model.
#![tactic(auto)]

mod places;

ghost use Rattle.std.specs.Prelude.{◌≡◌, true, [], ◌∷◌, ◌++◌, ◌≤◌, ◌<◌};
ghost use Rattle.model.specs.Limits.{port_limits};
ghost use Rattle.model.specs.Answers.{cause_number};
ghost use Rattle.model.specs.Refusals.{value_ok};
ghost use Rattle.model.specs.Port.{fresh, zero_port, sound as soundness, queue_of, holding, make_call, arrive_call, end_of_slot_call};
ghost use Rattle.port.specs.State.{state_of, limits_of, making_of, arrival_of, slot_of, refusing, Placed, Taking};

use crate::places::take_out;
use checks::ranges::{beta_ok, room_ok};
use checks::{all_zero, numbers_rise, ranges, value_ok, values_ok};
use model::{ArrivalAnswer, Beta, Cause, Loss, Packet, PacketNumber, Record, Refusal, Rule};
use queue::{Choice, decide};

// Room, beta, the last number given, and the held packets in order: the oldest at place 0, unused places zero.
#[derive(Clone, Copy)]
pub struct Port {
    pub room: usize,
    pub beta: Beta,
    pub last: PacketNumber,
    pub held: usize,
    pub values: [u32; Port::ROOM],
    pub numbers: [u32; Port::ROOM],
}

// The limits of a port.
#[derive(Clone, Copy)]
pub struct Limits {
    pub room: usize,
    pub beta: u32,
    pub number: u32,
}

// What the making of a port hands back.
#[derive(Clone, Copy)]
pub struct MadePort {
    pub port: Port,
    pub answer: Result<(), Refusal>,
}

// What an arrival hands back.
#[derive(Clone, Copy)]
pub struct PortArrival {
    pub port: Port,
    pub answer: Result<ArrivalAnswer, Refusal>,
}

// What an end of slot hands back.
#[derive(Clone, Copy)]
pub struct PortSlot {
    pub port: Port,
    pub answer: Result<Option<Packet>, Refusal>,
}

// A packet that was held, and the port without it.
#[derive(Clone, Copy)]
struct Taken {
    port: Port,
    packet: Packet,
}

impl Port {
    pub const ROOM: usize = ranges::ROOM;

    pub const BETA: u32 = ranges::BETA;

    pub const NUMBER: u32 = 4_294_967_295;

    // The limits above, shown equal to those that the definitions name.
    pub fn limits() -> Limits
        ensures { limits_of result ≡ port_limits }
    {
        Limits {
            room: Port::ROOM,
            beta: Port::BETA,
            number: Port::NUMBER,
        }
    }

    // Makes a port that holds nothing. A refused making hands back a port that is zero throughout.
    pub fn new(room: usize, beta: Beta) -> MadePort
        ensures { making_of result ≡ make_call room beta }
    {
        let roomy = room_ok(room);
        if !roomy {
            return unmade(Cause::Room);
        }
        if !beta_ok(beta) {
            return unmade(Cause::Parameters);
        }
        MadePort {
            port: empty(room, beta),
            answer: Ok(()),
        }
    }

    // Room and beta are in range, held is at most room, and the places are as they must be. Any struct can be asked.
    pub fn is_sound(self) -> bool
        ensures { result ≡ soundness (state_of self) }
    {
        if !room_ok(self.room) {
            return false;
        }
        if !beta_ok(self.beta) {
            return false;
        }
        if self.room < self.held {
            return false;
        }
        let held = self.held;
        let values = self.values;
        if !values_ok(&values[..held]) {
            return false;
        }
        let numbers = self.numbers;
        if !numbers_rise(&numbers[..held], self.last.0) {
            return false;
        }
        all_zero(&values[held..]) && all_zero(&numbers[held..])
    }

    // An arrival.
    pub fn arrive(self, value: u32) -> PortArrival
        ensures { arrival_of result ≡ arrive_call (state_of self) value }
    {
        let sound = self.is_sound();
        let in_range = value_ok(value);
        let left = self.last.0 < Port::NUMBER;
        if !sound {
            return self.refuse(Cause::Unsound);
        }
        if !in_range {
            return self.refuse(Cause::Value);
        }
        if !left {
            return self.refuse(Cause::Spent);
        }
        self.accept(value)
    }

    // An end of slot: the oldest held packet is sent, or the slot is idle.
    pub fn end_of_slot(self) -> PortSlot
        ensures { slot_of result ≡ end_of_slot_call (state_of self) }
    {
        if !self.is_sound() {
            return PortSlot {
                port: self,
                answer: Err(Refusal {
                    cause: Cause::Unsound,
                    place: 0,
                }),
            };
        }
        let idle = self.held == 0;
        if idle {
            return PortSlot {
                port: self,
                answer: Ok(None),
            };
        }
        let Taken { port, packet } = self.take(0);
        PortSlot {
            port,
            answer: Ok(Some(packet)),
        }
    }

    // Refuses an arrival.
    fn refuse(self, cause: Cause) -> PortArrival
        ensures { arrival_of result ≡ refusing (cause_number cause) (state_of self) }
    {
        let refusal = Refusal { cause, place: 0 };
        PortArrival {
            port: self,
            answer: Err(refusal),
        }
    }

    // An arrival that is not refused: PG decides.
    fn accept(mut self, value: u32) -> PortArrival
        requires self_value { soundness (state_of self) ≡ true }
        requires value_value { value_ok value ≡ true }
        requires last_lt_number { self.last.0 < port_limits.number }
        ensures { arrival_of result ≡ arrive_call (state_of self) value }
    {
        let last = self.last;
        let given = last.0 + 1;
        let number = PacketNumber(given);
        let packet = Packet { number, value };
        let beta = self.beta;
        let held = self.held;
        let values = self.values;
        match decide(&values[..held], self.room, Rule::PG(beta), value) {
            Choice::Hold => PortArrival {
                port: self.hold(packet),
                answer: Ok(ArrivalAnswer::Held(number)),
            },
            Choice::Reject => {
                self.last = number;
                PortArrival {
                    port: self,
                    answer: Ok(ArrivalAnswer::Rejected(number)),
                }
            }
            Choice::Lose(place, kind) => {
                let taken = self.take(place);
                let rest = taken.port;
                let lost = taken.packet;
                PortArrival {
                    port: rest.hold(packet),
                    answer: Ok(ArrivalAnswer::HeldLosing(number, Loss { packet: lost, kind })),
                }
            }
        }
    }

    // Holds a packet: it goes behind the others, and its number is the last given.
    fn hold(mut self, packet: Packet) -> Port
        requires placed { Placed (state_of self) }
        requires held_lt_room { self.held < port_limits.room }
        ensures { state_of result ≡ holding (state_of self) packet.number (queue_of (state_of self) ++ packet ∷ []) }
    {
        let held = self.held;
        let number = packet.number;
        self.values[held] = packet.value;
        self.numbers[held] = number.0;
        self.held = held + 1;
        self.last = number;
        self
    }

    // Takes the packet at a place out of the queue.
    fn take(mut self, place: usize) -> Taken
        requires placed { Placed (state_of self) }
        requires held_le_room { self.held ≤ port_limits.room }
        requires place_lt_held { place < self.held }
        ensures { Taking (state_of self) place result }
    {
        let held = self.held;
        let mut values = self.values;
        let mut numbers = self.numbers;
        let value = take_out(&mut values, held, place);
        let number = take_out(&mut numbers, held, place);
        self.values = values;
        self.numbers = numbers;
        self.held = held - 1;
        Taken {
            port: self,
            packet: Packet {
                number: PacketNumber(number),
                value,
            },
        }
    }
}

// A port with this room and beta that holds nothing, whatever they are: Port::new refuses bad ones first.
fn empty(room: usize, beta: Beta) -> Port
    ensures { state_of result ≡ fresh room beta }
{
    Port {
        room,
        beta,
        last: PacketNumber(0),
        held: 0,
        values: [0; Port::ROOM],
        numbers: [0; Port::ROOM],
    }
}

// Refuses the making of a port.
fn unmade(cause: Cause) -> MadePort
    ensures { making_of result ≡ refusing (cause_number cause) zero_port }
{
    MadePort {
        port: empty(0, Beta { num: 0, den: 0 }),
        answer: Err(Refusal { cause, place: 0 }),
    }
}
