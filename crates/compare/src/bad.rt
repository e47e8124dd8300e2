// Bad arguments, item 7 of the trace of a case, and with them the case as a whole.
// A kind stays a number here: second/CASES.md gives it one, `draw` draws that, and one `match` reads it. An enum would add a table from one to the other.
use crate::case::{Case, Lengths, Lists, draw_case};
use crate::draw::Source;
use crate::lists::put;
use model::{Beta, Marking};

// The packets of a trace that has one too many.
const TOO_MANY: u32 = 2_049;

// How often the arguments of a case are spoilt: where its number mod 4 is not 3, never.
fn draw_times(source: &mut Source, number: u32) -> u32 {
    if number % 4 != 3 {
        return 0;
    }
    if number % 64 == 63 {
        return source.draw(2);
    }
    source.draw_from_one(3)
}

// Makes the trace that long, where the case's number mod 64 is 63.
fn lengthen(case: Case, lists: &mut Lists) -> Case {
    if case.number % 64 != 63 {
        return case;
    }
    lists.slots.fill(1);
    lists.values.fill(1);
    lists.mf_values.fill(case.marking.lo);
    Case {
        n: TOO_MANY,
        lengths: Lengths::all(TOO_MANY),
        ..case
    }
}

// Kinds 3 to 7: the length of a list, of which 3 and 4 set the entry past the n-th.
fn spoil_length(source: &mut Source, kind: u32, case: Case, lists: &mut Lists) -> Lengths {
    let past = case.n as usize;
    let length = if source.draw(2) == 0 {
        case.n.saturating_add(1)
    } else {
        case.n.saturating_sub(1)
    };
    let mut lengths = case.lengths;
    match kind {
        3 => {
            put(&mut lists.slots, past, 1_000_000);
            lengths.slots = length;
        }
        4 => {
            put(&mut lists.values, past, 1);
            put(&mut lists.mf_values, past, 1);
            lengths.values = length;
        }
        5 => lengths.fates = length,
        6 => lengths.whens = length,
        _ => lengths.bys = length,
    }
    lengths
}

// Kinds 8 to 13, of a case and of a port made by hand.
pub fn spoil_beta(kind: u32, beta: Beta) -> Beta {
    let Beta { num, den } = beta;
    match kind {
        8 => Beta { num: 0, den },
        9 => Beta { num, den: 0 },
        10 => Beta { num: den, den },
        11 => Beta { num: 65_536, den },
        12 => Beta {
            num: 65_537,
            den: 65_536,
        },
        _ => Beta { num: den, den: num },
    }
}

// Kind 14.
fn spoil_marking(source: &mut Source, marking: Marking) -> Marking {
    let Marking { lo, hi, r } = marking;
    match source.draw(4) {
        0 => Marking { lo: hi, hi, r },
        1 => Marking { lo: 0, hi, r },
        2 => Marking { lo, hi: 65_536, r },
        _ => Marking { lo: hi, hi: lo, r },
    }
}

// Kind 16: the slot that a packet's own becomes.
fn wrong_slot(source: &mut Source, slot: u32) -> u32 {
    match source.draw(3) {
        0 => 0,
        1 => 1_000_001,
        _ => slot.saturating_sub(1),
    }
}

// Kind 17.
fn wrong_value(source: &mut Source) -> u32 {
    if source.draw(2) == 0 { 0 } else { 65_536 }
}

// Kinds 18 and 19: a value that is mostly in range and neither lo nor hi.
fn wrong_mark(source: &mut Source, marking: Marking) -> u32 {
    match source.draw(4) {
        0 => marking.hi.saturating_add(1),
        1 => 65_535,
        2 => marking.lo.saturating_add(1),
        _ => marking.lo.saturating_sub(1),
    }
}

// Kinds 16 to 19: an entry of a list, where a packet is there.
fn spoil_entry(source: &mut Source, kind: u32, case: Case, lists: &mut Lists) {
    if case.n == 0 {
        return;
    }
    let place = source.draw(case.n) as usize;
    match kind {
        16 => {
            if let Some(slot) = lists.slots.get_mut(place) {
                *slot = wrong_slot(source, *slot);
            }
        }
        17 => {
            let value = wrong_value(source);
            put(&mut lists.values, place, value);
            put(&mut lists.mf_values, place, value);
        }
        _ => put(
            &mut lists.mf_values,
            place,
            wrong_mark(source, case.marking),
        ),
    }
}

// Spoils a case once.
fn spoil(source: &mut Source, case: Case, lists: &mut Lists) -> Case {
    let kind = source.draw(20);
    match kind {
        0 => Case { room: 0, ..case },
        1 => Case { room: 257, ..case },
        2 => Case {
            room: 4_294_967_295,
            ..case
        },
        3..=7 => Case {
            lengths: spoil_length(source, kind, case, lists),
            ..case
        },
        8..=13 => Case {
            beta: spoil_beta(kind, case.beta),
            ..case
        },
        14 => Case {
            marking: spoil_marking(source, case.marking),
            ..case
        },
        15 => Case {
            marking: Marking {
                r: 256,
                ..case.marking
            },
            ..case
        },
        _ => {
            spoil_entry(source, kind, case, lists);
            case
        }
    }
}

// Draws a case by its number, bad arguments with it, where that mod 4 is 3: spoils them some times, one after another.
pub fn case_of(source: &mut Source, number: u32, lists: &mut Lists) -> Case {
    let drawn = draw_case(source, number, lists);
    let times = draw_times(source, number);
    let mut case = lengthen(drawn, lists);
    for _ in 0..times {
        case = spoil(source, case, lists);
    }
    case
}
