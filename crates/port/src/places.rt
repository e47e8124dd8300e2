// A list whose first `held` places are in use.
ghost use Rattle.std.specs.Prelude.{◌≤◌, ◌<◌, length};
ghost use Rattle.port.specs.State.{TakenOut};

use queue::slide;

// Takes out the entry at a place: those behind it move down, and the place that the last of them leaves becomes zero.
pub fn take_out(list: &mut [u32], held: usize, place: usize) -> u32
    requires place_lt_held { place < held }
    requires held_in_bounds { held ≤ length list.old }
    ensures { TakenOut held place list.old list.new result }
{
    let entry = list[place];
    slide(list, place + 1, held, place);
    list[held - 1] = 0;
    entry
}
