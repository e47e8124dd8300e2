// A case, from its number to all that is said of it.
use crate::bad::case_of;
use crate::calls::say_calls;
use crate::case::Lists;
use crate::draw::Source;
use crate::hand::say_hand;
use crate::lists::ENTRIES;
use crate::live::say_port;
use crate::said::Sum;

// Says a case, by its number: calls all that it asks, in order, on its own lists.
pub fn say_case(sum: &mut Sum, number: u32) {
    let mut source = Source::new(number);
    let mut lists = Lists {
        slots: [0; ENTRIES],
        values: [0; ENTRIES],
        mf_values: [0; ENTRIES],
    };
    let case = case_of(&mut source, number, &mut lists);
    say_calls(sum, &mut source, case, &lists);
    say_port(sum, case, &lists);
    say_hand(sum, &mut source, case);
}
