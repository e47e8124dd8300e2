// What the arguments of the lab program ask for: each argument as a word, and the words as a job.
#![tactic(auto)]

pub mod jobs;
pub mod words;
