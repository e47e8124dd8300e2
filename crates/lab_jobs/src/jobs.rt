// What the arguments ask for.
ghost use Rattle.std.specs.Prelude.{◌≡◌, ◌≤◌, get_or, length, take};
ghost use Rattle.lab_jobs.specs.Jobs.{all_betas, policy_from, command_from, job_from, only_betas, may_follow, job_by_kinds};
ghost use Rattle.lab_jobs.specs.Words.{words_of};

use crate::words::{BETA, Word};
use model::Marking;
use runs::Policy;

// The most words of a job that is no table.
const WORDS: usize = 6;

// A command with its room.
#[derive(Clone, Copy)]
pub enum Job {
    Run(Policy, usize),
    Table(usize),
    Audit(usize),
}

fn all_betas(words: &[Word]) -> bool
    ensures { result ≡ all_betas words.now }
{
    words.iter().all(|word| word.beta().is_some())
}

// A policy by its name and its parameters.
#[tactic(auto, using(crate::proofs::Asking::policy_is))]
fn policy_from(name: Word, parameters: &[Word]) -> Option<Policy>
    ensures { result ≡ policy_from name parameters.now }
{
    match (name, parameters) {
        (Word::Greedy, []) => Some(Policy::Greedy),
        (Word::Pg, [beta]) => {
            let beta = beta.beta()?;
            Some(Policy::PG(beta))
        }
        (Word::Mf, [lo, hi, r]) => {
            let lo = lo.number()?;
            let hi = hi.number()?;
            let r = r.number()? as usize;
            Some(Policy::MF(Marking { lo, hi, r }))
        }
        (Word::Plan, []) => Some(Policy::Plan),
        _ => None,
    }
}

// A command by its name and its parameters; a table's betas are the words behind its room.
#[tactic(auto, using(crate::proofs::Asking::command_is))]
fn command_from(name: Word, parameters: &[Word]) -> Option<Job>
    ensures { result ≡ command_from name parameters.now }
{
    match (name, parameters) {
        (Word::Run, [policy, room, parameters @ ..]) => {
            let policy = policy_from(*policy, parameters)?;
            let room = room.number()? as usize;
            Some(Job::Run(policy, room))
        }
        (Word::Table, [room, betas @ ..]) if all_betas(betas) => {
            let room = room.number()? as usize;
            Some(Job::Table(room))
        }
        (Word::Audit, [room]) => {
            let room = room.number()? as usize;
            Some(Job::Audit(room))
        }
        _ => None,
    }
}

// The job of some words; none where they ask for nothing.
// Word by word, and not by one match of the whole list: of a variant inside a slice pattern the facts have no name that a proof may cite.
#[tactic(auto, unfolding(crate::specs::Jobs::job_from))]
pub fn job_from(words: &[Word]) -> Option<Job>
    ensures { result ≡ job_from words.now }
{
    let (name, parameters) = words.split_first()?;
    command_from(*name, parameters)
}

// The number at a place; 0 where there is none.
fn number_at(numbers: &[u32], place: usize) -> u32
    ensures { result ≡ get_or numbers.now place 0 }
{
    numbers.get(place).copied().unwrap_or(0)
}

// Puts the words of some kinds into a lent list.
fn put_words(kinds: &[u8], firsts: &[u32], seconds: &[u32], words: &mut [Word])
    requires { length kinds.now ≤ length words.old }
    ensures { take (length kinds.now) words.new ≡ words_of kinds.now firsts.now seconds.now }
{
    for (place, kind) in kinds.iter().enumerate() {
        let first = number_at(firsts, place);
        let second = number_at(seconds, place);
        words[place] = Word::of_kind(*kind, first, second);
    }
}

fn only_betas(kinds: &[u8]) -> bool
    ensures { result ≡ only_betas kinds.now }
{
    kinds.iter().all(|kind| *kind == BETA)
}

// Whether words of these kinds may stand behind six that ask for a job: betas behind a table's, none behind another's.
fn may_follow(job: Job, kinds: &[u8]) -> bool
    ensures { result ≡ may_follow job kinds.now }
{
    match job {
        Job::Table(_) => only_betas(kinds),
        _ => kinds.is_empty(),
    }
}

// The job of some words, for a caller that holds their kinds and numbers in parallel lists; a number that is not there is 0.
pub fn job_of_lists(kinds: &[u8], firsts: &[u32], seconds: &[u32]) -> Option<Job>
    ensures { result ≡ job_by_kinds kinds.now firsts.now seconds.now }
{
    let (head, behind) = kinds.split_at(WORDS.min(kinds.len()));
    let mut words = [Word::Other; WORDS];
    put_words(head, firsts, seconds, &mut words);
    let job = job_from(&words[..head.len()])?;
    if may_follow(job, behind) {
        return Some(job);
    }
    None
}
