// The program's arguments as words, in a lent list.
ghost use Rattle.std.specs.Prelude.{◌≡◌, ◌+◌, ◌≤◌, length, take};
ghost use Rattle.lab.specs.Heard.{most_words, betas_in, HeardAs};

use lab_jobs::words::{Word, word_of};
use lab_table::BETAS;
use model::Beta;
use std::env::{Env, FillError};

// The most words: a command, its room and its betas.
pub const WORDS: usize = 2 + BETAS;

// The most bytes of a word.
const BYTES: usize = 24;

// How many words there are; none where there are more of them, or a longer one, than any command has.
pub fn read_words<E: Env>(env: &E, words: &mut [Word]) -> Option<usize>
    requires { length words.old ≡ most_words }
    ensures { HeardAs result words.new }
{
    let mut bytes = [0u8; BYTES];
    if let Err(FillError::NotPresent) = env.arg(0, &mut bytes) {
        return None;
    }
    for place in 0..WORDS {
        let got = match env.arg(place + 1, &mut bytes) {
            Ok(got) => got,
            Err(FillError::NotPresent) => return Some(place),
            Err(FillError::TooLong) => return None,
        };
        words[place] = word_of(&bytes[..got]);
    }
    match env.arg(WORDS + 1, &mut bytes) {
        Err(FillError::NotPresent) => Some(WORDS),
        _ => None,
    }
}

// Copies the betas of a table, which are the words behind its room, into a lent list, and counts them.
pub fn copy_betas(words: &[Word], betas: &mut [Beta]) -> usize
    requires { length words.now ≤ 2 + length betas.old }
    ensures within { result ≤ length betas.new }
    ensures copied { take result betas.new ≡ betas_in words.now }
{
    let [_, _, behind @ ..] = words else {
        return 0;
    };
    let mut count = 0;
    for word in behind {
        if let Some(beta) = word.beta() {
            betas[count] = beta;
            count += 1;
        }
    }
    count
}
