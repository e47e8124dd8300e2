// The totals of a record, whatever its fates. One that can't be counted, of more packets or other values than a trace has, has none. Nothing is decided
// on the way through the lists, so a turn costs little.
#![tactic(auto)]

ghost use Rattle.std.specs.Prelude.{◌≡◌, cond, ◌≤◌, length};
ghost use Rattle.model.specs.Limits.{record_limits};
ghost use Rattle.laws.specs.WellFormed.{sum};
ghost use Rattle.totals.specs.Totals.{ValuesFit, Countable, tally_by, CountedOrNone};

use checks::values_ok;
use model::{Fate, Record, Tally, Totals};

// The number under a test, else 0.
pub fn only_if(test: bool, n: u32) -> u32
    ensures { result ≡ cond test n 0 }
{
    if test { n } else { 0 }
}

fn sum_of(values: &[u32]) -> u32
    requires values_len_bound { length values.now ≤ record_limits.packets }
    requires values_fit { ValuesFit values.now }
    ensures { result ≡ sum values.now }
{
    values.iter().sum()
}

fn tally_of(values: &[u32], fates: &[u32], fate: Fate) -> Tally
    requires { Countable values.now fates.now }
    ensures { result ≡ tally_by values.now fates.now fate }
{
    let number = u32::from(fate);
    let mut count = 0;
    let mut value = 0;
    for (worth, fate) in values.iter().zip(fates) {
        let counted = *fate == number;
        count += only_if(counted, 1);
        value += only_if(counted, *worth);
    }
    Tally { count, value }
}

#[tactic(auto, using(crate::proofs::Counting::all_fit, crate::proofs::Counting::some_bad))]
pub fn totals(values: &[u32], fates: &[u32], most: u32) -> Totals
    ensures { CountedOrNone values.now fates.now most result }
{
    if values.len() != fates.len() {
        return Totals::none();
    }
    if Record::PACKETS < fates.len() {
        return Totals::none();
    }
    let fit = values_ok(values);
    if !fit {
        return Totals::none();
    }
    let all = sum_of(values);
    let sent = tally_of(values, fates, Fate::Sent);
    let rejected = tally_of(values, fates, Fate::Rejected);
    let pushed_out = tally_of(values, fates, Fate::PushedOut);
    let preempted = tally_of(values, fates, Fate::Preempted);
    let flushed = tally_of(values, fates, Fate::Flushed);
    let count = fates.len() as u32;
    Totals {
        arrived: Tally { count, value: all },
        sent,
        rejected,
        pushed_out,
        preempted,
        flushed,
        most_held: most,
    }
}
