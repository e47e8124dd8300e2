// What each answer of a call says in 01's numbers: the one place where answers become numbers.
#![tactic(auto)]

ghost use Rattle.std.specs.Prelude.{◌≡◌};
ghost use Rattle.model.specs.Numbers.{cause_number};
ghost use Rattle.model.specs.Calls.{reply_to};
ghost use Rattle.model.specs.Answers.{of_run, of_audit, of_arrival, of_slot, of_making, port_says, port_refused};

use model::{
    ArrivalAnswer, AuditError, Fate, Packet, PacketNumber, PortReply, Refusal, Reply, Totals,
};

// A live call that was not refused.
fn says(number: u32, given: PacketNumber, packet: Packet) -> PortReply
    ensures { result ≡ port_says number given packet }
{
    PortReply {
        number,
        place: 0,
        given,
        packet,
    }
}

// A refusal of a call on a trace.
fn refused(refusal: Refusal) -> Reply
    ensures { result ≡ reply_to (record { number = cause_number refusal.cause; place = refusal.place }) }
{
    let place = refusal.place;
    Reply {
        number: refusal.cause.into(),
        place,
        totals: Totals::none(),
    }
}

// A refusal of a live call.
fn refused_live(refusal: Refusal) -> PortReply
    ensures { result ≡ port_refused (cause_number refusal.cause) refusal.place }
{
    PortReply {
        number: refusal.cause.into(),
        place: refusal.place,
        given: PacketNumber(0),
        packet: Packet::nobody(),
    }
}

// What a run or the plan says.
pub fn of_run(answer: Result<Totals, Refusal>) -> Reply
    ensures { result ≡ of_run answer }
{
    match answer {
        Ok(totals) => Reply {
            number: 0,
            place: 0,
            totals,
        },
        Err(refusal) => refused(refusal),
    }
}

// What the audit says.
pub fn of_audit(answer: Result<Totals, AuditError>) -> Reply
    ensures { result ≡ of_audit answer }
{
    match answer {
        Ok(totals) => Reply {
            number: 0,
            place: 0,
            totals,
        },
        Err(AuditError::Faulty(first)) => Reply {
            number: first.fault.into(),
            place: first.packet.0,
            totals: Totals::none(),
        },
        Err(AuditError::Refused(refusal)) => refused(refusal),
    }
}

// What a live arrival says.
pub fn of_arrival(answer: Result<ArrivalAnswer, Refusal>) -> PortReply
    ensures { result ≡ of_arrival answer }
{
    match answer {
        Ok(ArrivalAnswer::Held(given)) => says(0, given, Packet::nobody()),
        Ok(ArrivalAnswer::HeldLosing(given, loss)) => {
            says(Fate::from(loss.kind).into(), given, loss.packet)
        }
        Ok(ArrivalAnswer::Rejected(given)) => says(Fate::Rejected.into(), given, Packet::nobody()),
        Err(refusal) => refused_live(refusal),
    }
}

// What a live end of slot says.
pub fn of_slot(answer: Result<Option<Packet>, Refusal>) -> PortReply
    ensures { result ≡ of_slot answer }
{
    match answer {
        Ok(Some(packet)) => says(Fate::Sent.into(), PacketNumber(0), packet),
        Ok(None) => says(0, PacketNumber(0), Packet::nobody()),
        Err(refusal) => refused_live(refusal),
    }
}

// What the making of a port says.
pub fn of_making(answer: Result<(), Refusal>) -> PortReply
    ensures { result ≡ of_making answer }
{
    match answer {
        Ok(()) => says(0, PacketNumber(0), Packet::nobody()),
        Err(refusal) => refused_live(refusal),
    }
}
