// A port made by hand, sound or not: item 8 of what is called. A kind stays a number, as in bad.rt: the page numbers it, and one `match` reads it.
ghost use Rattle.std.specs.Prelude.{◌≤◌};

use crate::bad::spoil_beta;
use crate::case::Case;
use crate::draw::Source;
use crate::lists::put;
use crate::live::{arrive, end_slot};
use crate::said::Sum;
use model::PacketNumber;
use port::Port;

const ROOM: u32 = Port::ROOM as u32;

fn draw_held(source: &mut Source, room: usize) -> u32 {
    let room = u32::try_from(room).unwrap_or(u32::MAX);
    match source.draw(4) {
        0 => 0,
        1 => room,
        _ => source.draw_to(room),
    }
}

// What the first number is more than.
fn draw_start(source: &mut Source) -> u32 {
    if source.draw(2) == 0 {
        4_294_966_000
    } else {
        0
    }
}

fn draw_last(source: &mut Source, x: u32) -> u32 {
    match source.draw(4) {
        0 => x,
        1 => x.saturating_add(source.draw(10)),
        2 => 4_294_967_294,
        _ => 4_294_967_295,
    }
}

fn draw_port(source: &mut Source, case: Case) -> Port {
    let mut values = [0u32; Port::ROOM];
    let mut numbers = [0u32; Port::ROOM];
    let held = draw_held(source, case.room) as usize;
    let mut x = draw_start(source);
    for (value, number) in values.iter_mut().zip(&mut numbers).take(held) {
        x = x.saturating_add(source.draw_from_one(3));
        *number = x;
        *value = source.draw_from_one(9);
    }
    let last = PacketNumber(draw_last(source, x));
    Port {
        room: case.room,
        beta: case.beta,
        last,
        held,
        values,
        numbers,
    }
}

// The places in use.
fn used(port: &Port) -> u32
    ensures { result ≤ 256 }
{
    port.held.min(Port::ROOM) as u32
}

// Kinds 14 to 17: an entry of the u places in use.
fn spoil_used(source: &mut Source, u: u32, list: &mut [u32], to: u32) {
    if 0 < u {
        put(list, source.draw(u) as usize, to);
    }
}

// Kinds 18 and 19: the numbers of two neighbours.
fn spoil_order(source: &mut Source, kind: u32, port: &mut Port) {
    let u = used(port);
    if u <= 1 {
        return;
    }
    let before = source.draw(u - 1) as usize;
    let j = before + 1;
    if kind == 18 {
        port.numbers[j] = port.numbers[before];
    } else {
        port.numbers.swap(j, before);
    }
}

// Kinds 22 and 23: an entry of the places not in use.
fn spoil_unused(source: &mut Source, u: u32, list: &mut [u32]) {
    if u < ROOM {
        put(list, (u + source.draw(ROOM - u)) as usize, 1);
    }
}

// Spoils a port once.
fn spoil(source: &mut Source, port: &mut Port) {
    let u = used(port);
    let kind = source.draw(24);
    match kind {
        0 => port.room = 0,
        1 => port.room = 257,
        2 => port.room = 4_294_967_295,
        3 => {
            if 1 < u {
                port.room = u as usize - 1;
            }
        }
        4 => port.held = 257,
        5 => port.held = 4_294_967_295,
        6 => {
            if u < ROOM {
                port.held = u as usize + 1;
            }
        }
        7 => port.held = port.held.saturating_sub(1),
        8..=13 => port.beta = spoil_beta(kind, port.beta),
        14 => spoil_used(source, u, &mut port.values, 0),
        15 => spoil_used(source, u, &mut port.values, 65_536),
        16 => spoil_used(source, u, &mut port.values, 4_294_967_295),
        17 => spoil_used(source, u, &mut port.numbers, 0),
        18 | 19 => spoil_order(source, kind, port),
        20 => {
            if 0 < u {
                port.last = PacketNumber(port.numbers[u as usize - 1].saturating_sub(1));
            }
        }
        21 => port.last = PacketNumber(0),
        22 => spoil_unused(source, u, &mut port.values),
        _ => spoil_unused(source, u, &mut port.numbers),
    }
}

// Spoils a port, half of the time, once or twice.
fn spoil_some(source: &mut Source, port: &mut Port) {
    if source.draw(2) == 1 {
        for _ in 0..source.draw_from_one(2) {
            spoil(source, port);
        }
    }
}

fn draw_value(source: &mut Source) -> u32 {
    match source.draw(8) {
        0 => 0,
        1 => 65_536,
        _ => source.draw_from_one(20),
    }
}

// Makes a port by hand and calls it, where the case's number mod 4 is not 3. The port is said whole after each call.
pub fn say_hand(sum: &mut Sum, source: &mut Source, case: Case) {
    if case.number % 4 == 3 {
        return;
    }
    let mut port = draw_port(source, case);
    spoil_some(source, &mut port);
    arrive(sum, &mut port, draw_value(source));
    sum.say_whole(&port);
    end_slot(sum, &mut port);
    sum.say_whole(&port);
    arrive(sum, &mut port, draw_value(source));
    sum.say_whole(&port);
}
