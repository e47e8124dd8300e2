// Answers the random cases of second/CASES.md with the proved calls, and writes one line for each batch of them.
#![tactic(auto)]

mod answers;
mod bad;
mod calls;
mod case;
mod damage;
mod draw;
mod hand;
mod lists;
mod live;
mod record;
mod said;

use crate::answers::say_case;
use crate::said::Sum;
use std::io;

const BATCHES: u16 = 400;

const CASES: u32 = 50;

fn letter(x: u64) -> u8 {
    b'a' + (x % 26) as u8
}

// Two letters of a sum, which lead from a difference in a batch to its case.
fn letters(sum: u64) -> [u8; 2] {
    [letter(sum), letter(sum / 26)]
}

// A batch's line: the letters of each of its cases, as they are answered, and their sum.
fn write_line<R: Print>(rt: &R, batch: u16) -> io::Result<()> {
    let mut sum = Sum::new();
    print!(rt; "{batch},")?;
    for i in 0..CASES {
        say_case(&mut sum, batch as u32 * CASES + i);
        rt.write_all(&letters(sum.so_far()))?;
    }
    println!(rt; ",{}", sum.so_far())
}

fn main(rt: HostRuntime) -> io::Result<()> {
    for batch in 0..BATCHES {
        write_line(&rt, batch)?;
    }
    Ok(())
}
