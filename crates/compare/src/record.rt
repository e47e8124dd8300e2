// A record that a case lends, and the calls on it.
use crate::case::{Lengths, Trace};
use crate::lists::{ENTRIES, list, list_mut};
use crate::said::Sum;
use audit::audit;
use model::Reply;
use replies::{of_audit, of_run};
use runs::{Policy, call};

// What its lists hold before a call.
const BEFORE: u32 = 7;

// The three lists, each as long as the case says.
#[derive(Drop)]
pub struct Record {
    pub lengths: Lengths,
    pub fates: [u32; ENTRIES],
    pub whens: [u32; ENTRIES],
    pub bys: [u32; ENTRIES],
}

impl Record {
    pub fn new(lengths: Lengths) -> Record {
        Record {
            lengths,
            fates: [BEFORE; ENTRIES],
            whens: [BEFORE; ENTRIES],
            bys: [BEFORE; ENTRIES],
        }
    }

    // A policy or the offline plan writes it anew.
    pub fn call(&mut self, policy: Policy, trace: Trace) -> Reply {
        let Trace {
            slots,
            values,
            room,
        } = trace;
        let lengths = self.lengths;
        let fates = list_mut(&mut self.fates, lengths.fates);
        let whens = list_mut(&mut self.whens, lengths.whens);
        let bys = list_mut(&mut self.bys, lengths.bys);
        fates.fill(BEFORE);
        whens.fill(BEFORE);
        bys.fill(BEFORE);
        of_run(call(policy, room, slots, values, fates, whens, bys))
    }

    pub fn audit(&self, trace: Trace) -> Reply {
        of_audit(audit(
            trace.slots,
            trace.values,
            trace.room,
            list(&self.fates, self.lengths.fates),
            list(&self.whens, self.lengths.whens),
            list(&self.bys, self.lengths.bys),
        ))
    }

    pub fn say(&self, sum: &mut Sum) {
        sum.say_list(list(&self.fates, self.lengths.fates));
        sum.say_list(list(&self.whens, self.lengths.whens));
        sum.say_list(list(&self.bys, self.lengths.bys));
    }
}
