// The proved calls for the benchmark, a Rust program, to link: the runs, the audit and a live port, on numbers and slices.
#![tactic(auto)]

mod live;
mod said;

ghost use Rattle.model.specs.Record.{lists_of};
ghost use Rattle.model.specs.Calls.{greedy_call, pg_call, mf_call, plan_call, audit_call};
ghost use Rattle.model.specs.Port.{make_call};
ghost use Rattle.std.specs.Prelude.{◌≡◌};
ghost use Rattle.model.specs.Lent.{was, left};
ghost use Rattle.host.specs.Said.{beta_of, marking_of, SaysOf, SaidOfAudit};
ghost use Rattle.host.specs.Live.{heard_of};

use crate::live::feed;
use crate::said::{code, say_audit, say_run};
use audit::audit;
use model::{Beta, Marking};
use port::Port;
use replies::of_making;
use runs_policy::{mf, plan};
use runs_rule::{greedy, pg};

// Plain greedy. Every call answers 0 and writes its totals, or it answers a refusal's number times 2^32 and its place, and writes nothing.
#[unsafe(no_mangle)]
pub extern "C" fn host_greedy(
    slots: &[u32],
    values: &[u32],
    room: usize,
    fates: &mut [u32],
    whens: &mut [u32],
    bys: &mut [u32],
    totals: &mut [u32],
) -> u64
    ensures { SaysOf fates whens bys totals result (greedy_call slots.now values.now room) }
{
    say_run(greedy(slots, values, room, fates, whens, bys), totals)
}

// PG with beta num / den.
#[unsafe(no_mangle)]
pub extern "C" fn host_pg(
    slots: &[u32],
    values: &[u32],
    room: usize,
    num: u32,
    den: u32,
    fates: &mut [u32],
    whens: &mut [u32],
    bys: &mut [u32],
    totals: &mut [u32],
) -> u64
    ensures { SaysOf fates whens bys totals result (pg_call slots.now values.now room (beta_of num den)) }
{
    say_run(
        pg(slots, values, room, Beta { num, den }, fates, whens, bys),
        totals,
    )
}

// MF.
#[unsafe(no_mangle)]
pub extern "C" fn host_mf(
    slots: &[u32],
    values: &[u32],
    room: usize,
    lo: u32,
    hi: u32,
    r: usize,
    fates: &mut [u32],
    whens: &mut [u32],
    bys: &mut [u32],
    totals: &mut [u32],
) -> u64
    ensures { SaysOf fates whens bys totals result (mf_call slots.now values.now room (marking_of lo hi r)) }
{
    say_run(
        mf(
            slots,
            values,
            room,
            Marking { lo, hi, r },
            fates,
            whens,
            bys,
        ),
        totals,
    )
}

// The offline plan.
#[unsafe(no_mangle)]
pub extern "C" fn host_plan(
    slots: &[u32],
    values: &[u32],
    room: usize,
    fates: &mut [u32],
    whens: &mut [u32],
    bys: &mut [u32],
    totals: &mut [u32],
) -> u64
    ensures { SaysOf fates whens bys totals result (plan_call slots.now values.now room) }
{
    say_run(plan(slots, values, room, fates, whens, bys), totals)
}

// The audit: it only reads the record. A fault is answered as a refusal is, with totals that are all 0.
#[unsafe(no_mangle)]
pub extern "C" fn host_audit(
    slots: &[u32],
    values: &[u32],
    room: usize,
    fates: &[u32],
    whens: &[u32],
    bys: &[u32],
    totals: &mut [u32],
) -> u64
    ensures { SaidOfAudit (audit_call slots.now values.now room (lists_of fates.now whens.now bys.now)) (was totals) result (left totals) }
{
    say_audit(audit(slots, values, room, fates, whens, bys), totals)
}

// A port is made and fed events by value: 0 is an end of slot, any other number an arrival of that value. The answer mixes all that the port says, in order. Where the making is refused it is the refusal's number times 2^32 and its place, which is above all such mixes, and nothing is fed.
#[unsafe(no_mangle)]
pub extern "C" fn host_port(events: &[u32], room: usize, num: u32, den: u32) -> u64
    ensures { result ≡ heard_of (make_call room (beta_of num den)) events.now }
{
    let made = Port::new(room, Beta { num, den });
    let answer = made.answer;
    let reply = of_making(answer);
    if reply.number != 0 {
        return code(reply.number, reply.place);
    }
    feed(made.port, events)
}
