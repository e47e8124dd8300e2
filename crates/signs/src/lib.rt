// The bytes that the grammar of our texts names, the line's end, and the headers of a trace and of a record.
#![tactic(auto)]

ghost use Rattle.std.specs.Prelude.{◌≡◌};
ghost use Rattle.signs.specs.Signs.{trace_header, record_header};

pub const CR: u8 = b'\r';

pub const LF: u8 = b'\n';

pub const QUOTE: u8 = b'"';

pub const COMMA: u8 = b',';

pub const ZERO: u8 = b'0';

pub const NINE: u8 = b'9';

pub const LINE_END: [u8; 2] = *b"\r\n";

pub const TRACE: [u8; 10] = *b"slot,value";

pub const RECORD: [u8; 30] = *b"number,slot,value,fate,when,by";

// The headers above, shown equal to those that the definitions name. Two functions and no generic one: each one's contract is of its own constant.
pub fn trace_header() -> [u8; 10]
    ensures { result ≡ trace_header }
{
    TRACE
}

pub fn record_header() -> [u8; 30]
    ensures { result ≡ record_header }
{
    RECORD
}
