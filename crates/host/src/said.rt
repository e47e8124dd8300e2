// What a call on a trace answers, as one number and a lent list of totals.
ghost use Rattle.std.specs.Prelude.{◌≡◌, ◌<◌};
ghost use Rattle.model.specs.Answers.{of_run, of_audit};
ghost use Rattle.host.specs.Said.{code_of, tallied, told, gives_totals, SaidOfAudit};

use entry::put;
use model::{AuditError, Fault, Refusal, Reply, Tally, Totals};
use replies::{of_audit, of_run};

fn put_tally(list: &mut [u32], place: usize, tally: Tally)
    requires { place < 12 }
    ensures { list.new ≡ tallied place tally list.old }
{
    put(list, place, tally.count);
    put(list, place + 1, tally.value);
}

// Writes the totals: two numbers for each tally, then the most held.
fn tell(list: &mut [u32], totals: Totals)
    ensures { list.new ≡ told totals list.old }
{
    put_tally(list, 0, totals.arrived);
    put_tally(list, 2, totals.sent);
    put_tally(list, 4, totals.rejected);
    put_tally(list, 6, totals.pushed_out);
    put_tally(list, 8, totals.preempted);
    put_tally(list, 10, totals.flushed);
    put(list, 12, totals.most_held);
}

// A refusal or a fault in one number: C has no Result.
pub fn code(number: u32, place: u32) -> u64
    ensures { result ≡ code_of number place }
{
    number as u64 * 4_294_967_296 + place as u64
}

// Whether a reply of this number has totals: 0 has, and so has a fault, whose totals are all 0.
fn gives_totals(number: u32) -> bool
    ensures { result ≡ gives_totals number }
{
    if number == 0 {
        return true;
    }
    let first = u32::from(Fault::FateOutside);
    if number < first {
        return false;
    }
    let last = u32::from(Fault::OverRoom);
    number <= last
}

// A refusal writes no totals.
fn say(reply: Reply, totals: &mut [u32]) -> u64
    ensures { SaidOfAudit reply totals.old result totals.new }
{
    let said = code(reply.number, reply.place);
    if !gives_totals(reply.number) {
        return said;
    }
    tell(totals, reply.totals);
    said
}

pub fn say_run(answer: Result<Totals, Refusal>, totals: &mut [u32]) -> u64
    ensures { SaidOfAudit (of_run answer) totals.old result totals.new }
{
    say(of_run(answer), totals)
}

pub fn say_audit(answer: Result<Totals, AuditError>, totals: &mut [u32]) -> u64
    ensures { SaidOfAudit (of_audit answer) totals.old result totals.new }
{
    say(of_audit(answer), totals)
}
