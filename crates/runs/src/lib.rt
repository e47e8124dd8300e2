// Every policy and the offline plan by one call, with the policy as a value.
#![tactic(auto)]

ghost use Rattle.std.specs.Prelude.{◌≡◌};
ghost use Rattle.model.specs.Lent.{lists_before, lists_after};
ghost use Rattle.model.specs.Answers.{of_run};
ghost use Rattle.steps.specs.Calls.{outcome};
ghost use Rattle.runs.specs.Policy.{call_of, reply_of, too_many};

use model::{Beta, Cause, Marking, Record, Refusal, Totals};

// The policies and the offline plan, each with its parameters.
#[derive(Clone, Copy)]
pub enum Policy {
    Greedy,
    PG(Beta),
    MF(Marking),
    Plan,
}

// A policy's run on a trace, with its record in three lent lists.
pub fn call(
    policy: Policy,
    room: usize,
    slots: &[u32],
    values: &[u32],
    fates: &mut [u32],
    whens: &mut [u32],
    bys: &mut [u32],
) -> Result<Totals, Refusal>
    ensures { outcome result (lists_after fates whens bys) ≡ call_of policy room slots.now values.now (lists_before fates whens bys) }
{
    match policy {
        Policy::Greedy => runs_rule::greedy(slots, values, room, fates, whens, bys),
        Policy::PG(beta) => runs_rule::pg(slots, values, room, beta, fates, whens, bys),
        Policy::MF(m) => runs_policy::mf(slots, values, room, m, fates, whens, bys),
        Policy::Plan => runs_policy::plan(slots, values, room, fates, whens, bys),
    }
}

// The refusal of a trace that has more packets than a record has places, whatever the policy.
pub fn too_many(packets: usize, values: usize) -> Refusal
    ensures { of_run (Err result) ≡ too_many packets values }
{
    let cause = if values == packets {
        Cause::Packets
    } else {
        Cause::Lengths
    };
    Refusal { cause, place: 0 }
}

// What a policy's run on a trace answers; the record is dropped.
pub fn reply(policy: Policy, room: usize, slots: &[u32], values: &[u32]) -> Result<Totals, Refusal>
    ensures { of_run result ≡ reply_of policy room slots.now values.now }
{
    let n = slots.len();
    if Record::PACKETS < n {
        return Err(too_many(n, values.len()));
    }
    let mut fates = [0u32; Record::PACKETS];
    let mut whens = [0u32; Record::PACKETS];
    let mut bys = [0u32; Record::PACKETS];
    call(
        policy,
        room,
        slots,
        values,
        &mut fates[..n],
        &mut whens[..n],
        &mut bys[..n],
    )
}
