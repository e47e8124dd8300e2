// What damages a record before it is audited.
use crate::draw::Source;
use crate::lists::put;
use crate::record::Record;

// The number of the fate that the page names.
const SENT: u32 = 1;

// The when of every packet whose fate is sent is some slots more: a sender that idles.
fn idle(fates: &[u32], whens: &mut [u32], slots: u32) {
    for (fate, when) in fates.iter().zip(whens) {
        if *fate == SENT {
            *when = when.saturating_add(slots);
        }
    }
}

// Exchanges the entries at two places, where both are there.
fn exchange(list: &mut [u32], a: usize, b: usize) {
    if a < list.len() && b < list.len() {
        list.swap(a, b);
    }
}

// One damage of a record of n packets. Its kind stays a number, as in bad.rt: the page numbers it, and one `match` reads it.
fn damage(source: &mut Source, n: u32, slots: &[u32], record: &mut Record) {
    let j = source.draw(n) as usize;
    let slot = slots.get(j).copied().unwrap_or(0);
    let when = record.whens.get(j).copied().unwrap_or(0);
    match source.draw(9) {
        0 => put(&mut record.fates, j, source.draw(8)),
        1 => put(&mut record.bys, j, source.draw(n.saturating_add(3))),
        2 => put(&mut record.whens, j, when.saturating_add(1)),
        3 => put(&mut record.whens, j, when.saturating_sub(1)),
        4 => put(&mut record.whens, j, u32::MAX),
        5 => {
            put(&mut record.fates, j, SENT);
            put(&mut record.whens, j, slot);
            put(&mut record.bys, j, 0);
        }
        6 => put(&mut record.bys, j, u32::MAX),
        7 => {
            let other = source.draw(n) as usize;
            exchange(&mut record.fates, j, other);
            exchange(&mut record.whens, j, other);
            exchange(&mut record.bys, j, other);
        }
        _ => idle(&record.fates, &mut record.whens, source.draw(3)),
    }
}

// From one to three damages of a record of n packets.
pub fn damage_some(source: &mut Source, n: u32, slots: &[u32], record: &mut Record) {
    for _ in 0..source.draw_from_one(3) {
        damage(source, n, slots, record);
    }
}
