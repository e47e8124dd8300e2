// Lists whose entries stand in a fixed array: what lies past a list's end stays there.
ghost use Rattle.std.specs.Prelude.{◌≤◌};

// Two more than a trace may have: a list of one packet too many that is one longer still.
pub const ENTRIES: usize = 2_050;

// The length of a list, at most that of the array that holds it.
fn length_of(n: u32) -> usize
    ensures { result ≤ 2_050 }
{
    (n as usize).min(ENTRIES)
}

// A list of n entries, to read and to write.
pub fn list(entries: &[u32; ENTRIES], n: u32) -> &[u32] {
    &entries[..length_of(n)]
}

pub fn list_mut(entries: &mut [u32; ENTRIES], n: u32) -> &mut [u32] {
    &mut entries[..length_of(n)]
}

// Writes the entry at a place, where there is one: the library's `get_mut`, for the places of bad.rt, damage.rt and hand.rt that write so.
pub fn put(list: &mut [u32], place: usize, x: u32) {
    if let Some(entry) = list.get_mut(place) {
        *entry = x;
    }
}
