// The host's totals: bodies committed, events accepted, stores made. A step tells what is added: its answer a body, its answer and the
// handler before it the events of a burst, the word that it stored a store.

#![tactic(auto)]

ghost use Rattle.std.specs.Prelude.{◌≡◌};
ghost use Rattle.model.specs.Calls.{more_by, one_if, is_commit, accepted_events};
ghost use Rattle.model.specs.Device.{burst_length};
ghost use Rattle.totals.specs.Counted.{stores, counted_from};

use model::{Answer, Handler, Totals};

// A total and a number more: "32 bits, staying at the largest value".
#[tactic(auto, unfolding(model::specs::Calls::more_by))]
fn more_by(total: u32, number: u32) -> u32
    ensures { result ≡ more_by total number }
{
    total.saturating_add(number)
}

// How many bodies an answer commits: one or none.
#[tactic(auto, unfolding(model::specs::Calls::one_if, model::specs::Calls::is_commit, model::specs::Test::pick))]
fn committed_bodies(answer: Answer) -> u32
    ensures { result ≡ one_if (is_commit answer) }
{
    u32::from(matches!(answer, Answer::Committed(_)))
}

// How many records a handler's burst has: none of one at rest.
#[tactic(auto, unfolding(model::specs::Device::burst_length))]
fn burst_length(handler: Handler) -> u32
    ensures { result ≡ burst_length handler }
{
    match handler {
        Handler::Resting => 0,
        Handler::Storing(length, _) => u32::from(length),
        Handler::Dropping | Handler::Replacing(_) => 1,
    }
}

// The events accepted after a step with this answer, which found this handler: all of its burst more, or none.
#[tactic(auto, using(crate::proofs::CountLaws::more_none), unfolding(model::specs::Calls::accepted_events, model::specs::Calls::is_accept, model::specs::Test::pick))]
fn accepted_after(total: u32, handler: Handler, answer: Answer) -> u32
    ensures { result ≡ more_by total (accepted_events handler answer) }
{
    match answer {
        Answer::Accepted(_) => more_by(total, burst_length(handler)),
        _ => total,
    }
}

// How many stores that is: one or none.
#[tactic(auto, unfolding(crate::specs::Counted::stores))]
fn stores(stored: Option<u16>) -> u32
    ensures { result ≡ stores stored }
{
    u32::from(stored.is_some())
}

// The totals after a step with this answer, which found this handler and stored this word.
#[tactic(auto, unfolding(crate::specs::Counted::counted_from))]
pub fn counted(totals: Totals, handler: Handler, answer: Answer, stored: Option<u16>) -> Totals
    ensures { result ≡ counted_from totals handler answer stored }
{
    Totals {
        committed: more_by(totals.committed, committed_bodies(answer)),
        accepted: accepted_after(totals.accepted, handler, answer),
        stores: more_by(totals.stores, stores(stored)),
    }
}

// "one record that the host lends and a step updates": the totals change in place, once the step has answered.
pub fn count(totals: &mut Totals, handler: Handler, answer: Answer, stored: Option<u16>)
    ensures { totals.new ≡ counted_from totals.old handler answer stored }
{
    *totals = counted(*totals, handler, answer, stored);
}
