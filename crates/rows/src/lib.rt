// The rows of a CSV text under any header: a parser that is a value and takes the text in pieces. Every function takes any parser, any header and a table
// of any length, and states all that it answers and leaves. A parser's fields are private: outside, one comes from `Parser::new`, and of those the theorem
// `whole` says that what was read is what the definitions read in the text.
#![tactic(auto)]

ghost use Rattle.std.specs.Prelude.{◌≡◌, ◌+◌, ◌<◌, [], length, get_or};
ghost use Rattle.field.specs.Fields.{fields_of};
ghost use Rattle.rows.specs.Table.{written};
ghost use Rattle.rows.specs.Reading.{start_parser, in_field, spoiled as spoiling, after_return, counted as counting, next_column, next_line, name_of, state, field_ended, column_ended, line_ended, in_line, after, after_all, at_start, finished, outcome_of};

use entry::put;
use field::{Field, Kind};
use model::Record;
use signs::{COMMA, CR, LF};

// Why a text gives no rows: its first bad line, or more rows than there are places for.
#[derive(Clone, Copy)]
pub enum RowsError {
    Malformed(u64),
    TooMany,
}

// A text that has been read up to some byte: in which field of its present line, and whether its last byte is a CR that may begin a line's end; the number
// of that line; and how many rows the lines before it hold, a count that stops at one more than there are places for. That one more is a count like the
// others, so it is no Option; and the header and the table are lent to each call, since a parser that held them would be equal to no other.
#[derive(Clone, Copy)]
pub struct Parser {
    last: usize,
    column: usize,
    field: Field,
    after_cr: bool,
    line: u64,
    count: usize,
}

// The number of the header's last column: every comma parts two names.
#[tactic(auto, using(crate::proofs::Naming::commas_counted), unfolding(field::specs::Fields::fields_of))]
fn last_column(header: &[u8]) -> usize
    ensures { result + 1 ≡ length (fields_of header.now) }
{
    header.iter().filter(|byte| **byte == COMMA).count()
}

// The name of a column; no byte where the header has no such column.
fn name_at(header: &[u8], column: usize) -> &[u8]
    ensures { result.now ≡ get_or (fields_of header.now) column [] }
{
    header
        .split(|byte| *byte == COMMA)
        .nth(column)
        .unwrap_or(&[])
}

// Writes a number into its row's place of its column.
#[tactic(auto, unfolding(crate::specs::Table::written))]
fn write(table: &mut [u32], column: usize, row: usize, number: u32)
    ensures { table.new ≡ written column row number table.old }
{
    let placed = row < Record::PACKETS;
    if placed && column < table.len() / Record::PACKETS {
        put(table, column * Record::PACKETS + row, number);
    }
}

impl Parser {
    // Before the first byte.
    pub fn new(header: &[u8]) -> Self
        ensures { result ≡ start_parser header.now }
    {
        Parser {
            last: last_column(header),
            column: 0,
            field: Field::fresh(),
            after_cr: false,
            line: 1,
            count: 0,
        }
    }

    // The same field of the same line, further on.
    fn in_field(self, field: Field) -> Self
        ensures { result ≡ in_field field self }
    {
        Parser {
            field,
            after_cr: false,
            ..self
        }
    }

    // In a line that is bad.
    fn spoiled(self) -> Self
        ensures { result ≡ spoiling self }
    {
        self.in_field(Field::bad())
    }

    // Behind a CR.
    fn after_return(self) -> Self
        ensures { result ≡ after_return self }
    {
        Parser {
            after_cr: true,
            ..self
        }
    }

    // At the start of the next field.
    fn next_column(self) -> Self
        requires { self.column < self.last }
        ensures { result ≡ next_column self }
    {
        Parser {
            column: self.column + 1,
            ..self.in_field(Field::fresh())
        }
    }

    // The rows up to the end of this line: the header is none.
    fn counted(self) -> usize
        ensures { result ≡ counting self }
    {
        if self.line == 1 {
            return self.count;
        }
        self.count.saturating_add(1).min(Record::PACKETS + 1)
    }

    // At the start of the next line.
    fn next_line(self) -> Self
        ensures { result ≡ next_line self }
    {
        Parser {
            column: 0,
            line: self.line.saturating_add(1),
            count: self.counted(),
            ..self.in_field(Field::fresh())
        }
    }

    // The name that a field of this line is read against.
    fn name(self, header: &[u8]) -> &[u8]
        ensures { result.now ≡ name_of header.now self }
    {
        if self.line == 1 {
            return name_at(header, self.column);
        }
        &[]
    }

    // The end of a field: in line 1 it holds its column's name, elsewhere a number, which is written.
    #[tactic(auto, unfolding(crate::specs::Reading::field_ended))]
    fn end_field(self, header: &[u8], table: &mut [u32], next: Parser) -> Self
        ensures { state result table.new ≡ field_ended header.now next (state self table.old) }
    {
        let kind = self.field.kind(self.name(header));
        match (kind, self.line == 1) {
            (Some(Kind::Name), true) => next,
            (Some(Kind::Number(number)), false) => {
                write(table, self.column, self.count, number);
                next
            }
            _ => self.spoiled(),
        }
    }

    // A comma: the field is not the last of its line.
    #[tactic(auto, unfolding(crate::specs::Reading::column_ended))]
    fn end_column(self, header: &[u8], table: &mut [u32]) -> Self
        ensures { state result table.new ≡ column_ended header.now (state self table.old) }
    {
        if self.column < self.last {
            return self.end_field(header, table, self.next_column());
        }
        self.spoiled()
    }

    // The end of a line: the field is the last.
    #[tactic(auto, unfolding(crate::specs::Reading::line_ended))]
    fn end_line(self, header: &[u8], table: &mut [u32]) -> Self
        ensures { state result table.new ≡ line_ended header.now (state self table.old) }
    {
        if self.column == self.last {
            return self.end_field(header, table, self.next_line());
        }
        self.spoiled()
    }

    // A byte of a line.
    #[tactic(auto, unfolding(crate::specs::Reading::in_line))]
    fn in_line(self, header: &[u8], table: &mut [u32], byte: u8) -> Self
        ensures { state result table.new ≡ in_line header.now byte (state self table.old) }
    {
        if byte == COMMA {
            return self.end_column(header, table);
        }
        self.in_field(self.field.step(self.name(header), byte))
    }

    // One byte more.
    #[tactic(auto, unfolding(crate::specs::Reading::after))]
    fn step(self, header: &[u8], table: &mut [u32], byte: u8) -> Self
        ensures { state result table.new ≡ after header.now byte (state self table.old) }
    {
        match (self.after_cr, byte) {
            (true, LF) => self.end_line(header, table),
            (true, _) => self.spoiled(),
            (false, CR) => self.after_return(),
            (false, _) => self.in_line(header, table, byte),
        }
    }

    // A piece of the text.
    #[tactic(auto, using(crate::proofs::Parsing::fed_turn, crate::proofs::Parsing::fed_done))]
    pub fn feed(self, header: &[u8], table: &mut [u32], bytes: &[u8]) -> Self
        ensures { state result table.new ≡ after_all header.now bytes.now (state self table.old) }
    {
        let mut parser = self;
        for byte in bytes {
            parser = parser.step(header, table, *byte);
        }
        parser
    }

    // Whether no byte of this line has come.
    #[tactic(auto, unfolding(crate::specs::Reading::at_start))]
    fn is_at_start(self) -> bool
        ensures { result ≡ at_start self }
    {
        self.column == 0 && self.field.is_fresh()
    }

    // The end of the input: the last line's end is optional.
    #[tactic(auto, unfolding(crate::specs::Reading::finished))]
    pub fn end(self, header: &[u8], table: &mut [u32]) -> Self
        ensures { state result table.new ≡ finished header.now (state self table.old) }
    {
        if self.after_cr {
            return self.spoiled();
        }
        let nothing = self.is_at_start();
        if nothing && self.line != 1 {
            return self;
        }
        self.end_line(header, table)
    }

    // How many rows were read, at the end of the input. A bad line comes before all else.
    #[tactic(auto, unfolding(crate::specs::Reading::outcome_of))]
    pub fn outcome(self) -> Result<usize, RowsError>
        ensures { result ≡ outcome_of self }
    {
        if self.field.is_bad() {
            return Err(RowsError::Malformed(self.line));
        }
        if Record::PACKETS < self.count {
            return Err(RowsError::TooMany);
        }
        Ok(self.count)
    }
}
