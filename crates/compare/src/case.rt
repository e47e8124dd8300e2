// The trace of a case and its parameters, items 1 to 6 of second/CASES.md.
use crate::draw::Source;
use crate::lists::{ENTRIES, list, list_mut};
use model::{Beta, Marking};

// The length of each list: bad arguments make a list one longer or one shorter than n.
#[derive(Clone, Copy)]
pub struct Lengths {
    pub slots: u32,
    // Of MF's values too.
    pub values: u32,
    pub fates: u32,
    pub whens: u32,
    pub bys: u32,
}

impl Lengths {
    // Lists that all have n entries.
    pub fn all(n: u32) -> Lengths {
        Lengths {
            slots: n,
            values: n,
            fates: n,
            whens: n,
            bys: n,
        }
    }
}

// The numbers of a case; its own is `number`.
#[derive(Clone, Copy)]
pub struct Case {
    pub number: u32,
    pub n: u32,
    pub room: usize,
    pub beta: Beta,
    pub marking: Marking,
    pub lengths: Lengths,
}

// The lists of a case's trace, each as long as the case says.
#[derive(Drop)]
pub struct Lists {
    pub slots: [u32; ENTRIES],
    pub values: [u32; ENTRIES],
    pub mf_values: [u32; ENTRIES],
}

// What a call on a trace is given: its slots, its values or MF's, and the room.
#[derive(Clone, Copy)]
pub struct Trace<'a> {
    pub slots: &'a [u32],
    pub values: &'a [u32],
    pub room: usize,
}

impl Lists {
    pub fn trace(&self, case: Case) -> Trace<'_> {
        Trace {
            slots: list(&self.slots, case.lengths.slots),
            values: list(&self.values, case.lengths.values),
            room: case.room,
        }
    }

    pub fn mf_trace(&self, case: Case) -> Trace<'_> {
        Trace {
            values: list(&self.mf_values, case.lengths.values),
            ..self.trace(case)
        }
    }
}

// How the values of a trace are drawn.
#[derive(Clone, Copy)]
enum Values {
    All(u32),
    Either(u32, u32),
    FromOneTo(u32),
    Powers,
}

const LAST_SLOT: u32 = 1_000_000;

fn draw_size(source: &mut Source) -> u32 {
    match source.draw(16) {
        0 => 0,
        1..=9 => source.draw_from_one(12),
        10..=13 => source.draw_from_one(100),
        14 => source.draw_from_one(400),
        _ => {
            if source.draw(8) == 0 {
                2_048
            } else {
                source.draw_from_one(2_048)
            }
        }
    }
}

fn draw_room(source: &mut Source) -> u32 {
    match source.draw(6) {
        0 => 1,
        1 => 2,
        2 => 3 + source.draw(4),
        3 => source.draw_from_one(16),
        4 => source.draw_from_one(256),
        _ => 256,
    }
}

// All four numbers are drawn, whatever the kind.
fn draw_kind(source: &mut Source) -> Values {
    let kind = source.draw(6);
    let one = source.draw_from_one(65_535);
    let a = source.draw_from_one(100);
    let b = a + source.draw_from_one(1_000);
    match kind {
        0 => Values::All(one),
        1 => Values::Either(a, b),
        2 => Values::FromOneTo(4),
        3 => Values::FromOneTo(100),
        4 => Values::FromOneTo(65_535),
        _ => Values::Powers,
    }
}

fn draw_value(source: &mut Source, of: Values) -> u32 {
    match of {
        Values::All(one) => one,
        Values::Either(a, b) => { if source.draw(2) == 0 { a } else { b } }
        Values::FromOneTo(most) => source.draw_from_one(most),
        Values::Powers => 1u32 << source.draw(16),
    }
}

fn draw_values(source: &mut Source, values: &mut [u32]) {
    let of = draw_kind(source);
    for value in values {
        *value = draw_value(source, of);
    }
}

fn draw_first(source: &mut Source) -> u32 {
    match source.draw(3) {
        0 => 1,
        1 => source.draw_from_one(10),
        _ => 999_000 + source.draw(1_000),
    }
}

// What is added before a packet. `gaps` stays the number that item 4 gives it: this `match` alone reads it.
fn draw_gap(source: &mut Source, gaps: u32) -> u32 {
    match gaps {
        0 => 0,
        1 => source.draw(2),
        2 => {
            if source.draw(4) == 0 {
                source.draw_from_one(3)
            } else {
                0
            }
        }
        3 => 1,
        _ => {
            if source.draw(8) == 0 {
                source.draw(50_000)
            } else {
                source.draw(2)
            }
        }
    }
}

fn draw_slots(source: &mut Source, slots: &mut [u32]) {
    let mut now = draw_first(source);
    let gaps = source.draw(5);
    if let [first, others @ ..] = slots {
        *first = now;
        for slot in others {
            now = now.saturating_add(draw_gap(source, gaps)).min(LAST_SLOT);
            *slot = now;
        }
    }
}

fn draw_beta(source: &mut Source) -> Beta {
    let den = source.draw_from_one(4);
    let num = den + source.draw_from_one(8);
    if source.draw(8) == 0 {
        let den = source.draw_from_one(65_534);
        let num = den + source.draw_from_one(65_535 - den);
        return Beta { num, den };
    }
    Beta { num, den }
}

fn draw_r(source: &mut Source) -> u32 {
    if source.draw(6) == 0 {
        source.draw(256)
    } else {
        source.draw(4)
    }
}

fn draw_marking(source: &mut Source) -> Marking {
    let lo = source.draw_from_one(50);
    let hi = lo + source.draw_from_one(50);
    let r = draw_r(source) as usize;
    Marking { lo, hi, r }
}

// MF's values: hi where the packet's value is even, else lo.
fn mark_values(values: &[u32], mf_values: &mut [u32], marking: Marking) {
    for (value, mark) in values.iter().zip(mf_values) {
        *mark = if *value % 2 == 0 {
            marking.hi
        } else {
            marking.lo
        };
    }
}

// Draws items 1 to 6.
pub fn draw_case(source: &mut Source, number: u32, lists: &mut Lists) -> Case {
    let n = draw_size(source);
    let room = draw_room(source) as usize;
    draw_values(source, list_mut(&mut lists.values, n));
    draw_slots(source, list_mut(&mut lists.slots, n));
    let beta = draw_beta(source);
    let marking = draw_marking(source);
    mark_values(
        list(&lists.values, n),
        list_mut(&mut lists.mf_values, n),
        marking,
    );
    Case {
        number,
        n,
        room,
        beta,
        marking,
        lengths: Lengths::all(n),
    }
}
