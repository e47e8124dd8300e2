// A packet's entry in a list that has one for each packet of the trace, and in the three lists of a record.
#![tactic(auto)]

ghost use Rattle.std.specs.Prelude.{◌≡◌, get_or, set};
ghost use Rattle.model.specs.Packets.{place_of, slot_of, number_of};
ghost use Rattle.model.specs.Record.{enter as entering, lists_of};
ghost use Rattle.model.specs.Lent.{lists_before};
ghost use Rattle.entry.specs.Entry.{entry};

use model::{Fate, PacketNumber, Slot};

// The list with a number at a place; unchanged where it has no such place.
pub fn put(list: &mut [u32], place: usize, number: u32)
    ensures { list.new ≡ set list.old place number }
{
    if place < list.len() {
        list[place] = number;
    }
}

// The place in a list of the packet with this number.
pub fn place_of(number: PacketNumber) -> usize
    ensures { result ≡ place_of number }
{
    number.0.saturating_sub(1) as usize
}

// The entry of a list for the packet with this number; 0 where it has none.
fn entry_of(list: &[u32], number: PacketNumber) -> u32
    ensures { result ≡ get_or list.now (place_of number) 0 }
{
    list.get(place_of(number)).copied().unwrap_or(0)
}

// The slot in which the packet with this number arrives; 0 where the list has none.
pub fn slot_of(slots: &[u32], number: PacketNumber) -> Slot
    ensures { result ≡ slot_of slots.now number }
{
    Slot(entry_of(slots, number))
}

// The packet number that a list of packet numbers has for the packet with this number; 0 where it has none.
pub fn number_of(numbers: &[u32], number: PacketNumber) -> PacketNumber
    ensures { result ≡ number_of numbers.now number }
{
    PacketNumber(entry_of(numbers, number))
}

// Writes the entry of the packet with this number.
pub fn enter(
    fates: &mut [u32],
    whens: &mut [u32],
    bys: &mut [u32],
    number: PacketNumber,
    fate: Fate,
    when: Slot,
    by: PacketNumber,
)
    ensures { lists_of fates.new whens.new bys.new ≡ entering (entry number fate when by) (lists_before fates whens bys) }
{
    let place = place_of(number);
    put(fates, place, fate.into());
    put(whens, place, when.0);
    put(bys, place, by.0);
}
