// The lab program: it reads its arguments and standard input, and writes the answer. Where the arguments ask for nothing, or reading fails, it ends
// quietly. Where writing fails it ends with that error.
#![tactic(auto)]

mod answer;
mod arguments;
mod auditing;

ghost use Rattle.std.specs.Prelude.{◌≡◌, ◌≤◌, length};
ghost use Rattle.output.specs.Output.{output_limit};
ghost use Rattle.lab_table.specs.Table.{most_betas};
ghost use Rattle.lab.specs.Heard.{most_words};
ghost use Rattle.lab.specs.Answer.{record_places};
ghost use Rattle.lab_table.specs.Writing.{BeginsIn};
ghost use Rattle.lab.specs.Told.{ReadFor, Few, read_text, ToldOf, ToldBy};

use answer::answer;
use arguments::{WORDS, copy_betas, read_words};
use input::{InputError, read_rows};
use lab_jobs::jobs::{Job, job_from};
use lab_jobs::words::Word;
use lab_table::BETAS;
use model::{Beta, Cause, Record};
use output::{OUTPUT, put_refusal};
use rows::RowsError;
use signs::{RECORD, TRACE};
use std::env::Env;
use std::io;
use std::io::Read;

// A place for each packet in each column: of a trace, and of a record.
const TRACE_TABLE: usize = 2 * Record::PACKETS;

const RECORD_TABLE: usize = 6 * Record::PACKETS;

// Reads the input of a job: a record for the audit, else a trace, into the table's first columns.
fn read_input<R: Read>(
    reader: &mut R,
    job: Job,
    table: &mut [u32],
) -> Result<Result<usize, RowsError>, InputError>
    requires { length table.old ≡ record_places }
    ensures { ReadFor job result table.old table.new }
{
    if let Job::Audit(_) = job {
        return read_rows(reader, &RECORD, table);
    }
    read_rows(reader, &TRACE, &mut table[..TRACE_TABLE])
}

// What is said of a job and what was read for it.
fn say(
    job: Job,
    betas: &[Beta],
    read: Result<usize, RowsError>,
    rows: &[u32],
    out: &mut [u8],
) -> usize
    requires betas_len_bound { length betas.now ≤ most_betas }
    requires rows_len { length rows.now ≡ record_places }
    requires few { Few read }
    requires output_limit_in_bounds { output_limit ≤ length out.old }
    ensures { BeginsIn out result (read_text job betas.now read rows.now) }
{
    match read {
        Ok(count) => answer(job, betas, rows, count, out),
        Err(RowsError::Malformed(line)) => put_refusal(out, u32::from(Cause::Text) as u64, line),
        Err(RowsError::TooMany) => put_refusal(out, u32::from(Cause::Packets) as u64, 0),
    }
}

// Reads the input, where the words ask for something, and puts the answer into the list; says how many bytes it has.
fn answer_words<R: Read>(
    reader: &mut R,
    words: &[Word],
    out: &mut [u8],
) -> Result<usize, InputError>
    requires words_len_bound { length words.now ≤ most_words }
    requires output_limit_in_bounds { output_limit ≤ length out.old }
    ensures { ToldOf words.now result out.new }
{
    let Some(job) = job_from(words) else {
        return Ok(0);
    };
    let mut betas = [Beta { num: 0, den: 0 }; BETAS];
    let count = copy_betas(words, &mut betas);
    let mut rows = [0u32; RECORD_TABLE];
    let read = read_input(reader, job, &mut rows)?;
    Ok(say(job, &betas[..count], read, &rows, out))
}

// Reads the arguments and answers them.
fn answer_all<E: Env, R: Read>(env: &E, reader: &mut R, out: &mut [u8]) -> Result<usize, InputError>
    requires { output_limit ≤ length out.old }
    ensures { ToldBy result out.new }
{
    let mut words = [Word::Other; WORDS];
    let Some(count) = read_words(env, &mut words) else {
        return Ok(0);
    };
    answer_words(reader, &words[..count], out)
}

fn main(rt: HostRuntime) -> io::Result<()> {
    let mut out = [0u8; OUTPUT];
    let Ok(n) = answer_all(&rt, &mut rt.stdin(), &mut out) else {
        return Ok(());
    };
    rt.write_all(&out[..n])
}
