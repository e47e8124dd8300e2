// Tests of numbers and of lists of them that several calls make.
#![tactic(auto)]

pub mod ranges;

ghost use Rattle.std.specs.Prelude.{◌≡◌, eqb};
ghost use Rattle.model.specs.Limits.{within};
ghost use Rattle.model.specs.Refusals.{value_ok};
ghost use Rattle.model.specs.Port.{all, rises_from};

use model::Record;

// n is one of 1, .., high.
#[tactic(auto, unfolding(model::specs::Limits::within))]
pub fn in_range(high: usize, n: usize) -> bool
    ensures { result ≡ within 1 high n }
{
    (1..=high).contains(&n)
}

pub fn value_ok(value: u32) -> bool
    ensures { result ≡ value_ok value }
{
    in_range(Record::VALUE as usize, value as usize)
}

// All values are in range. Here and below nothing is decided on the way, so a turn costs little: `all`, which stops at the first, took three times as long.
pub fn values_ok(values: &[u32]) -> bool
    ensures { result ≡ all value_ok values.now }
{
    let mut bad = false;
    for value in values {
        bad |= !value_ok(*value);
    }
    !bad
}

// The numbers rise and lie from 1 to the last number given.
pub fn numbers_rise(numbers: &[u32], last: u32) -> bool
    ensures { result ≡ rises_from 0 last numbers.now }
{
    let mut bad = false;
    let mut before = 0;
    for number in numbers {
        bad |= (*number <= before) | (last < *number);
        before = *number;
    }
    !bad
}

// The places are zero.
pub fn all_zero(places: &[u32]) -> bool
    ensures { result ≡ all (eqb 0) places.now }
{
    let mut bad = false;
    for place in places {
        bad |= *place != 0;
    }
    !bad
}
