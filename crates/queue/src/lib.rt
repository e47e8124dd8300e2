// What a policy decides of one arrival, from the values of the held packets, oldest first. No copy of the held list is made.
#![tactic(auto)]

ghost use Rattle.std.specs.Prelude.{◌≡◌, Some, position};
ghost use Rattle.queue.specs.Choose.{lowest_of, newest_of, preempts, overflow_choice, greedy_choice, choose, of_choice};
ghost use Rattle.queue.specs.Slide.{slid};

use model::{Beta, LossKind, Rule};

// What becomes of an arrival: it is held, rejected, or held at the cost of the packet at a place.
#[derive(Clone, Copy)]
pub enum Choice {
    Hold,
    Reject,
    Lose(usize, LossKind),
}

// The lowest value, if there is one. Nothing is decided on the way, so a turn costs little: `min`, which decides at each turn, took twice as long for 64 values.
fn lowest(values: &[u32]) -> Option<u32>
    ensures { result ≡ lowest_of values.now }
{
    let first = values.first()?;
    Some(values.iter().fold(*first, |low, value| low.min(*value)))
}

// The newest place with this value, if there is one.
fn newest(values: &[u32], value: u32) -> Option<usize>
    ensures { result ≡ newest_of value values.now }
{
    values.iter().rposition(|v| *v == value)
}

// An arrival preempts a packet of this value, by products.
fn preempts(beta: Beta, arrival: u32, value: u32) -> bool
    ensures { result ≡ preempts beta arrival value }
{
    (value as u64) * (beta.num as u64) <= (arrival as u64) * (beta.den as u64)
}

// The place of the first packet that an arrival preempts, if there is one. Where even the lowest value is not preempted none is.
fn preempted(values: &[u32], low: u32, beta: Beta, arrival: u32) -> Option<usize>
    requires { lowest_of values.now ≡ Some low }
    ensures { result ≡ position (preempts beta arrival) values.now }
{
    let goes = preempts(beta, arrival, low);
    if !goes {
        return None;
    }
    values
        .iter()
        .position(|value| preempts(beta, arrival, *value))
}

// There is no room: the loser of the held packets and the arrival goes, the lowest value, among equals the newest.
fn overflow(values: &[u32], low: u32, arrival: u32) -> Choice
    requires { lowest_of values.now ≡ Some low }
    ensures { result ≡ overflow_choice values.now arrival }
{
    if arrival <= low {
        return Choice::Reject;
    }
    let place = newest(values, low).unwrap();
    Choice::Lose(place, LossKind::PushedOut)
}

// Plain greedy.
fn decide_greedy(values: &[u32], room: usize, arrival: u32) -> Choice
    ensures { result ≡ greedy_choice room values.now arrival }
{
    if room <= values.len() {
        match lowest(values) {
            None => Choice::Reject,
            Some(low) => overflow(values, low, arrival),
        }
    } else {
        Choice::Hold
    }
}

// PG.
fn decide_pg(values: &[u32], room: usize, beta: Beta, arrival: u32) -> Choice
    ensures { result ≡ choose room (Rule.PG beta) values.now arrival }
{
    let Some(low) = lowest(values) else {
        return decide_greedy(values, room, arrival);
    };
    if let Some(place) = preempted(values, low, beta, arrival) {
        return Choice::Lose(place, LossKind::Preempted);
    }
    if values.len() < room {
        Choice::Hold
    } else {
        overflow(values, low, arrival)
    }
}

// The decision on an arrival.
pub fn decide(values: &[u32], room: usize, rule: Rule, arrival: u32) -> Choice
    ensures { of_choice result ≡ of_choice (choose room rule values.now arrival) }
{
    match rule {
        Rule::Greedy => decide_greedy(values, room, arrival),
        Rule::PG(beta) => decide_pg(values, room, beta, arrival),
    }
}

// Moves the entries from place `from` up to place `end` down to place `to`; the entries behind them stay. Where these are no such places nothing moves.
pub fn slide(list: &mut [u32], from: usize, end: usize, to: usize)
    ensures { list.new ≡ slid from end to list.old }
{
    if from < to {
        return;
    }
    if end < from {
        return;
    }
    if list.len() < end {
        return;
    }
    list.copy_within(from..end, to);
}
