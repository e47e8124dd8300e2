// The kinds that every crate speaks of: packet numbers and slots, what the record says of a packet, totals, and the answers of the calls. What they mean stands in specs/.
#![tactic(auto)]

ghost use Rattle.std.specs.Prelude.{◌≡◌};
ghost use Rattle.model.specs.Limits.{record_limits};
ghost use Rattle.model.specs.Numbers.{fate_number, cause_number, fault_number, Names};
ghost use Rattle.model.specs.Record.{loss_fate};
ghost use Rattle.model.specs.declared.AuditError.TheVariants.{Faulty, Refused};
ghost use Rattle.model.specs.Totals.{no_totals};
ghost use Rattle.model.specs.Packets.{nobody as no_packet};

// The number of a packet, from 1; 0 where there is none, and no Option, since it stands so in 01's lists. The index of document 000.
#[derive(Clone, Copy)]
pub struct PacketNumber(pub u32);

// A slot. The time of document 000.
#[derive(Clone, Copy)]
pub struct Slot(pub u32);

// A packet as a queue holds it.
#[derive(Clone, Copy)]
pub struct Packet {
    pub number: PacketNumber,
    pub value: u32,
}

impl Packet {
    // No packet.
    pub fn nobody() -> Packet
        ensures { result ≡ no_packet }
    {
        Packet {
            number: PacketNumber(0),
            value: 0,
        }
    }
}

// PG's beta, num / den. It is never divided.
#[derive(Clone, Copy)]
pub struct Beta {
    pub num: u32,
    pub den: u32,
}

// A rule for arrivals: plain greedy, or PG with its beta. They differ in the beta step alone.
#[derive(Clone, Copy)]
pub enum Rule {
    Greedy,
    PG(Beta),
}

// MF's parameters: the two values, and how many packets one of hi marks.
#[derive(Clone, Copy)]
pub struct Marking {
    pub lo: u32,
    pub hi: u32,
    pub r: usize,
}

// What can become of a packet.
#[derive(Clone, Copy, PartialEq, Eq)]
pub enum Fate {
    Sent,
    Rejected,
    PushedOut,
    Preempted,
    Flushed,
}

// 01's number of a fate.
impl From<Fate> for u32 {
    ghost from_gives = { λ fate n. n ≡ fate_number fate };

    fn from(fate: Fate) -> u32 {
        match fate {
            Fate::Sent => 1,
            Fate::Rejected => 2,
            Fate::PushedOut => 3,
            Fate::Preempted => 4,
            Fate::Flushed => 5,
        }
    }
}

// The fate of a number in a record; fault 11 where it has none.
impl TryFrom<u32> for Fate {
    type Error = Fault;

    ghost try_from_gives = { Names };

    #[tactic(auto, unfolding(crate::specs::Limits::within))]
    fn try_from(number: u32) -> Result<Fate, Fault> {
        match number {
            1 => Ok(Fate::Sent),
            2 => Ok(Fate::Rejected),
            3 => Ok(Fate::PushedOut),
            4 => Ok(Fate::Preempted),
            5 => Ok(Fate::Flushed),
            _ => Err(Fault::FateOutside),
        }
    }
}

// The kind of a trace and its record, by which their limits are named. A record itself is three lists that the caller lends.
#[derive(Clone, Copy)]
pub struct Record {}

impl Record {
    pub const PACKETS: usize = 2_048;

    pub const SLOT: u32 = 1_000_000;

    pub const VALUE: u32 = 65_535;

    pub const R: usize = 255;

    // The limits above, shown equal to those that the definitions name.
    pub fn limits() -> RecordLimits
        ensures { result ≡ record_limits }
    {
        RecordLimits {
            packets: Record::PACKETS,
            slot: Record::SLOT,
            value: Record::VALUE,
            r: Record::R,
        }
    }
}

// The limits of a trace, of its record and of mark-and-flush's r.
#[derive(Clone, Copy)]
pub struct RecordLimits {
    pub packets: usize,
    pub slot: u32,
    pub value: u32,
    pub r: usize,
}

// A number of packets and the sum of their values.
#[derive(Clone, Copy)]
pub struct Tally {
    pub count: u32,
    pub value: u32,
}

// The totals of a record.
#[derive(Clone, Copy)]
pub struct Totals {
    pub arrived: Tally,
    pub sent: Tally,
    pub rejected: Tally,
    pub pushed_out: Tally,
    pub preempted: Tally,
    pub flushed: Tally,
    pub most_held: u32,
}

impl Totals {
    // No totals: zero throughout.
    pub fn none() -> Totals
        ensures { result ≡ no_totals }
    {
        let nothing = Tally { count: 0, value: 0 };
        Totals {
            arrived: nothing,
            sent: nothing,
            rejected: nothing,
            pushed_out: nothing,
            preempted: nothing,
            flushed: nothing,
            most_held: 0,
        }
    }
}

// Why a call is refused.
#[derive(Clone, Copy)]
pub enum Cause {
    Lengths,
    Packets,
    Room,
    Parameters,
    Slot,
    Value,
    Spent,
    Unsound,
    Text,
}

// 01's number of a refusal.
impl From<Cause> for u32 {
    ghost from_gives = { λ cause n. n ≡ cause_number cause };

    fn from(cause: Cause) -> u32 {
        match cause {
            Cause::Lengths => 1,
            Cause::Packets => 2,
            Cause::Room => 3,
            Cause::Parameters => 4,
            Cause::Slot => 5,
            Cause::Value => 6,
            Cause::Spent => 7,
            Cause::Unsound => 8,
            Cause::Text => 21,
        }
    }
}

// A refusal: its cause, and its place (a packet's number or a line's), 0 where none is named, which is 01's own number for it and so no Option.
#[derive(Clone, Copy)]
pub struct Refusal {
    pub cause: Cause,
    pub place: u32,
}

// How a packet's entry can break the buffer's rules.
#[derive(Clone, Copy)]
pub enum Fault {
    FateOutside,
    ByWrong,
    WhenWrong,
    NotLater,
    OverRoom,
}

// 01's number of a fault.
impl From<Fault> for u32 {
    ghost from_gives = { λ fault n. n ≡ fault_number fault };

    fn from(fault: Fault) -> u32 {
        match fault {
            Fault::FateOutside => 11,
            Fault::ByWrong => 12,
            Fault::WhenWrong => 13,
            Fault::NotLater => 14,
            Fault::OverRoom => 15,
        }
    }
}

// The first fault of a record, and the packet that has it.
#[derive(Clone, Copy)]
pub struct FirstFault {
    pub fault: Fault,
    pub packet: PacketNumber,
}

// How a held packet can be lost to an arrival.
#[derive(Clone, Copy)]
pub enum LossKind {
    PushedOut,
    Preempted,
}

// The fate that such a loss is.
impl From<LossKind> for Fate {
    ghost from_gives = { λ kind fate. fate ≡ loss_fate kind };

    fn from(kind: LossKind) -> Fate {
        match kind {
            LossKind::PushedOut => Fate::PushedOut,
            LossKind::Preempted => Fate::Preempted,
        }
    }
}

// A held packet that an arrival cost.
#[derive(Clone, Copy)]
pub struct Loss {
    pub packet: Packet,
    pub kind: LossKind,
}

// What a call on a trace says, in the numbers that 01 and the C interface have in place of a Result: 0, or a refusal's or a fault's number with its place; and the totals, zero throughout where there are none.
#[derive(Clone, Copy)]
pub struct Reply {
    pub number: u32,
    pub place: u32,
    pub totals: Totals,
}

// What a live call says, zeros where there is none of these. Its number is a refusal's; 0 for an arrival held at no cost, an idle slot and a made port;
// else that of a fate, and whose it is: 2 rejected, the arrival's own; 3 pushed out and 4 preempted, that of `packet`, lost to the arrival, which is
// held; 1 sent, that of `packet`.
#[derive(Clone, Copy)]
pub struct PortReply {
    pub number: u32,
    // The refusal's place.
    pub place: u32,
    // The number that the arrival was given.
    pub given: PacketNumber,
    // The packet that was lost or sent.
    pub packet: Packet,
}

// Why an audit does not pass: its first fault, or a refusal.
#[derive(Clone, Copy)]
pub enum AuditError {
    Faulty(FirstFault),
    Refused(Refusal),
}

impl From<FirstFault> for AuditError {
    ghost from_gives = { λ fault e. e ≡ Faulty fault };

    fn from(fault: FirstFault) -> AuditError {
        AuditError::Faulty(fault)
    }
}

impl From<Refusal> for AuditError {
    ghost from_gives = { λ refusal e. e ≡ Refused refusal };

    fn from(refusal: Refusal) -> AuditError {
        AuditError::Refused(refusal)
    }
}

// What a live arrival answers, with the number that the packet was given.
#[derive(Clone, Copy)]
pub enum ArrivalAnswer {
    Held(PacketNumber),
    HeldLosing(PacketNumber, Loss),
    Rejected(PacketNumber),
}
