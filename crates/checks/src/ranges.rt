// The ranges of a room and of beta, tested the same way by every call: a trace's and a live port's.
ghost use Rattle.std.specs.Prelude.{◌≡◌};
ghost use Rattle.model.specs.Refusals.{room_ok, beta_ok};

use crate::in_range;
use model::{Beta, Record};

// The greatest room, which `Port::ROOM` names, and the greatest num or den of a beta, which `Port::BETA` names.
pub const ROOM: usize = 256;

pub const BETA: u32 = Record::VALUE;

pub fn room_ok(room: usize) -> bool
    ensures { result ≡ room_ok room }
{
    in_range(ROOM, room)
}

pub fn beta_ok(beta: Beta) -> bool
    ensures { result ≡ beta_ok beta }
{
    in_range(BETA as usize, beta.num as usize)
        && in_range(BETA as usize, beta.den as usize)
        && beta.den < beta.num
}
