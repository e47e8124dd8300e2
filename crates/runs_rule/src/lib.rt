// Plain greedy and PG on a trace, each a call that tests its input, runs, and answers the totals of the record that it wrote.
#![tactic(auto)]

mod rule;

ghost use Rattle.std.specs.Prelude.{◌≡◌};
ghost use Rattle.model.specs.Calls.{greedy_call, pg_call};
ghost use Rattle.model.specs.Lent.{lists_before, lists_after};
ghost use Rattle.steps.specs.Calls.{outcome};

use crate::rule::ByRule;
use model::{Beta, Refusal, Rule, Totals};
use runs_loop::{Accepted, finish};

// Plain greedy.
pub fn greedy(
    slots: &[u32],
    values: &[u32],
    room: usize,
    fates: &mut [u32],
    whens: &mut [u32],
    bys: &mut [u32],
) -> Result<Totals, Refusal>
    ensures { outcome result (lists_after fates whens bys) ≡ greedy_call slots.now values.now room (lists_before fates whens bys) }
{
    trace::check_plain(slots, values, room, fates, whens, bys)?;
    let rule = Rule::Greedy;
    let policy = ByRule { room, rule };
    let accepted = Accepted {
        slots,
        values,
        policy,
    };
    Ok(finish(accepted, fates, whens, bys))
}

// PG.
pub fn pg(
    slots: &[u32],
    values: &[u32],
    room: usize,
    beta: Beta,
    fates: &mut [u32],
    whens: &mut [u32],
    bys: &mut [u32],
) -> Result<Totals, Refusal>
    ensures { outcome result (lists_after fates whens bys) ≡ pg_call slots.now values.now room beta (lists_before fates whens bys) }
{
    trace::check_pg(slots, values, room, beta, fates, whens, bys)?;
    let rule = Rule::PG(beta);
    let policy = ByRule { room, rule };
    let accepted = Accepted {
        slots,
        values,
        policy,
    };
    Ok(finish(accepted, fates, whens, bys))
}
