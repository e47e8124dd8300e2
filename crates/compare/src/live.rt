// The calls of a live PG port, each said: the port that is handed back takes the place of the one before. And a port that is fed a case's packets.
use crate::case::{Case, Lists, Trace};
use crate::said::Sum;
use port::Port;
use replies::{of_arrival, of_making, of_slot};

// How many packets are fed at most.
const FED: u32 = 300;

// How many ends of slot are called for one packet at most.
const ENDS: u32 = 300;

// An arrival.
pub fn arrive(sum: &mut Sum, port: &mut Port, value: u32) {
    let arrival = port.arrive(value);
    *port = arrival.port;
    sum.say_live(of_arrival(arrival.answer));
}

// An end of slot.
pub fn end_slot(sum: &mut Sum, port: &mut Port) {
    let slot = port.end_of_slot();
    *port = slot.port;
    sum.say_live(of_slot(slot.answer));
}

// So many ends of slot, whatever they answer.
fn end_slots(sum: &mut Sum, port: &mut Port, times: u32) {
    for _ in 0..times {
        end_slot(sum, port);
    }
}

// Feeds a port the first n packets, each after the ends of the slots from now to the one before its own. Then it ends slots until nothing is held, and two
// more.
fn feed(sum: &mut Sum, port: &mut Port, n: u32, trace: Trace) {
    let mut now = 1;
    for i in 0..n as usize {
        let slot = trace.slots.get(i).copied().unwrap_or(0);
        end_slots(sum, port, slot.saturating_sub(now).min(ENDS));
        arrive(sum, port, trace.values.get(i).copied().unwrap_or(0));
        now = slot;
    }
    let held = u32::try_from(port.held).unwrap_or(u32::MAX);
    end_slots(sum, port, held.saturating_add(2));
}

// Makes a port and feeds it, where the case's number mod 4 is not 1.
pub fn say_port(sum: &mut Sum, case: Case, lists: &Lists) {
    if case.number % 4 == 1 {
        return;
    }
    let made = Port::new(case.room, case.beta);
    sum.say_making(of_making(made.answer));
    let mut port = made.port;
    feed(sum, &mut port, case.n.min(FED), lists.trace(case));
    sum.say_whole(&port);
}
