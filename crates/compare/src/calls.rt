// The calls on a trace, and what is said of each: the policies and the offline plan, with the audit of each record, and the audits of damaged records.
use crate::case::{Case, Lists, Trace};
use crate::damage::damage_some;
use crate::draw::Source;
use crate::record::Record;
use crate::said::Sum;
use runs::Policy;

// How many damaged records of a case are audited.
const DAMAGED: u32 = 3;

// A call, and the audit of the record that it left.
fn say_call(sum: &mut Sum, policy: Policy, trace: Trace, record: &mut Record) {
    sum.say_reply(record.call(policy, trace));
    record.say(sum);
    sum.say_reply(record.audit(trace));
}

// The three policies and the offline plan.
fn say_runs(sum: &mut Sum, case: Case, lists: &Lists, record: &mut Record) {
    let trace = lists.trace(case);
    say_call(sum, Policy::Greedy, trace, record);
    say_call(sum, Policy::PG(case.beta), trace, record);
    say_call(sum, Policy::MF(case.marking), lists.mf_trace(case), record);
    say_call(sum, Policy::Plan, trace, record);
}

// The room that a damaged record is audited with.
fn draw_audited(source: &mut Source, room: usize) -> usize {
    if source.draw(4) == 0 { 1 } else { room }
}

// The audit of PG's record, damaged.
fn say_damaged(sum: &mut Sum, source: &mut Source, case: Case, lists: &Lists, record: &mut Record) {
    let trace = lists.trace(case);
    record.call(Policy::PG(case.beta), trace);
    damage_some(source, case.n, trace.slots, record);
    let room = draw_audited(source, case.room);
    sum.say_reply(record.audit(Trace { room, ..trace }));
}

// All calls, and then the audits of damaged records, where a packet is there and the case's number mod 4 is not 3.
pub fn say_calls(sum: &mut Sum, source: &mut Source, case: Case, lists: &Lists) {
    let mut record = Record::new(case.lengths);
    say_runs(sum, case, lists, &mut record);
    if case.n == 0 || case.number % 4 == 3 {
        return;
    }
    for _ in 0..DAMAGED {
        say_damaged(sum, source, case, lists, &mut record);
    }
}
