// The bench program: it reads standard input to its end and writes the answer. Where reading fails it ends quietly. It stops too where the input is as
// long as a line's number can count, which no input is. Where writing fails it ends with that error.
#![tactic(auto)]

ghost use Rattle.std.specs.Prelude.{◌≤◌, length};
ghost use Rattle.output.specs.Output.{output_limit};
ghost use Rattle.bench.specs.Reads.{ToldBy};

use input::InputError;
use output::OUTPUT;
use signs::TRACE;
use std::io;
use std::io::Read;
use text::TABLE;

// Reads the reader to its end and puts the answer to its text into the list: so many bytes, or nothing, where a read failed or the input was longer than
// can be counted.
fn answer_input<R: Read>(reader: &mut R, out: &mut [u8]) -> Result<usize, InputError>
    requires { output_limit ≤ length out.old }
    ensures { ToldBy result out.new }
{
    let mut table = [0u32; TABLE];
    let read = input::read_rows(reader, &TRACE, &mut table)?;
    let n = text::answer(read, &table, out);
    Ok(n)
}

fn main(rt: HostRuntime) -> io::Result<()> {
    let mut out = [0u8; OUTPUT];
    let Ok(n) = answer_input(&mut rt.stdin(), &mut out) else {
        return Ok(());
    };
    rt.write_all(&out[..n])
}
