// An argument as a word: a command, a policy, a number or a beta.
ghost use Rattle.std.specs.Prelude.{◌≡◌};
ghost use Rattle.lab_jobs.specs.Words.{number_of, beta_of, name_in, number_in, slash_at, beta_in, word_of, word_of_kind};

use model::Beta;
use signs::{NINE, ZERO};

// The kinds of words by number, for a caller that holds them so. What is none of a command is OTHER, or any number above BETA.
pub const OTHER: u8 = 0;

pub const RUN: u8 = 1;

pub const TABLE: u8 = 2;

pub const AUDIT: u8 = 3;

pub const GREEDY: u8 = 4;

pub const PG: u8 = 5;

pub const MF: u8 = 6;

pub const PLAN: u8 = 7;

pub const NUMBER: u8 = 8;

pub const BETA: u8 = 9;

// The most digits of a number.
const DIGITS: usize = 7;

#[derive(Clone, Copy)]
pub enum Word {
    Other,
    Run,
    Table,
    Audit,
    Greedy,
    Pg,
    Mf,
    Plan,
    Number(u32),
    Beta(Beta),
}

impl Word {
    // The word of a kind, with its numbers: one of a number, two of a beta.
    #[tactic(auto, unfolding(crate::specs::Words::word_of_kind))]
    pub fn of_kind(kind: u8, first: u32, second: u32) -> Word
        ensures { result ≡ word_of_kind kind first second }
    {
        match kind {
            RUN => Word::Run,
            TABLE => Word::Table,
            AUDIT => Word::Audit,
            GREEDY => Word::Greedy,
            PG => Word::Pg,
            MF => Word::Mf,
            PLAN => Word::Plan,
            NUMBER => Word::Number(first),
            BETA => Word::Beta(Beta {
                num: first,
                den: second,
            }),
            _ => Word::Other,
        }
    }

    // The number that a word is.
    pub(crate) fn number(self) -> Option<u32>
        ensures { result ≡ number_of self }
    {
        match self {
            Word::Number(number) => Some(number),
            _ => None,
        }
    }

    // The beta that a word is.
    pub fn beta(self) -> Option<Beta>
        ensures { result ≡ beta_of self }
    {
        match self {
            Word::Beta(beta) => Some(beta),
            _ => None,
        }
    }
}

fn number_in(bytes: &[u8]) -> Option<u32>
    ensures { result ≡ number_in bytes.now }
{
    if bytes.is_empty() || DIGITS < bytes.len() {
        return None;
    }
    let mut number = 0;
    for byte in bytes {
        if *byte < ZERO || NINE < *byte {
            return None;
        }
        number = number * 10 + (*byte - ZERO) as u32;
    }
    Some(number)
}

fn slash_at(bytes: &[u8]) -> Option<usize>
    ensures { result ≡ slash_at bytes.now }
{
    bytes.iter().position(|byte| *byte == b'/')
}

#[tactic(auto, using(crate::proofs::Wording::behind_is), unfolding(crate::specs::Words::beta_in))]
fn beta_in(bytes: &[u8]) -> Option<Beta>
    ensures { result ≡ beta_in bytes.now }
{
    let at = slash_at(bytes)?;
    let num = number_in(&bytes[..at])?;
    let den = number_in(&bytes[at + 1..])?;
    Some(Beta { num, den })
}

// By `==`: in a match on byte strings the last arm is 27 goals, of facts that have no name which a proof may cite.
#[tactic(auto, unfolding(crate::specs::Words::name_in))]
fn name_in(bytes: &[u8]) -> Option<Word>
    ensures { result ≡ name_in bytes.now }
{
    if bytes == b"run".as_slice() {
        return Some(Word::Run);
    }
    if bytes == b"table".as_slice() {
        return Some(Word::Table);
    }
    if bytes == b"audit".as_slice() {
        return Some(Word::Audit);
    }
    if bytes == b"greedy".as_slice() {
        return Some(Word::Greedy);
    }
    if bytes == b"pg".as_slice() {
        return Some(Word::Pg);
    }
    if bytes == b"mf".as_slice() {
        return Some(Word::Mf);
    }
    if bytes == b"plan".as_slice() {
        return Some(Word::Plan);
    }
    None
}

#[tactic(auto, unfolding(crate::specs::Words::word_of))]
pub fn word_of(bytes: &[u8]) -> Word
    ensures { result ≡ word_of bytes.now }
{
    if let Some(name) = name_in(bytes) {
        return name;
    }
    if let Some(number) = number_in(bytes) {
        return Word::Number(number);
    }
    match beta_in(bytes) {
        Some(beta) => Word::Beta(beta),
        None => Word::Other,
    }
}
