// The answer to a job, from a table with a place for each packet in each column.
ghost use Rattle.std.specs.Prelude.{◌≡◌, ◌<◌, ◌≤◌, length};
ghost use Rattle.model.specs.Limits.{record_limits};
ghost use Rattle.output.specs.Output.{output_limit};
ghost use Rattle.lab_table.specs.Table.{most_betas};
ghost use Rattle.lab.specs.Answer.{record_places, columns_in, answer_text};
ghost use Rattle.lab_table.specs.Writing.{BeginsIn};

use crate::auditing::check;
use lab_jobs::jobs::Job;
use lab_table::table;
use model::{Beta, Record};
use text::run;

// The first entries of a column.
fn column(rows: &[u32], place: usize, count: usize) -> &[u32]
    requires rows_len { length rows.now ≡ record_places }
    requires place_in_bounds { place < 6 }
    requires count_le_packets { count ≤ record_limits.packets }
    ensures { result.now ≡ columns_in rows.now count place }
{
    let from = place * Record::PACKETS;
    &rows[from..from + count]
}

pub fn answer(job: Job, betas: &[Beta], rows: &[u32], count: usize, out: &mut [u8]) -> usize
    requires betas_len_bound { length betas.now ≤ most_betas }
    requires rows_len { length rows.now ≡ record_places }
    requires count_le_packets { count ≤ record_limits.packets }
    requires output_limit_in_bounds { output_limit ≤ length out.old }
    ensures { BeginsIn out result (answer_text job betas.now (columns_in rows.now count)) }
{
    let first = column(rows, 0, count);
    let second = column(rows, 1, count);
    match job {
        Job::Run(policy, room) => run(policy, room, first, second, out),
        Job::Table(room) => table(room, first, second, betas, out),
        Job::Audit(room) => check(
            room,
            first,
            second,
            column(rows, 2, count),
            column(rows, 3, count),
            column(rows, 4, count),
            column(rows, 5, count),
            out,
        ),
    }
}
