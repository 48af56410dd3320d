// Starred cases of document 01 as programs over the calls. What these programs return is proved from the calls' contracts alone: no proof
// here looks into a call.

#![tactic(auto)]

ghost use Rattle.std.specs.Prelude.{[], ◌∷◌, ◌≡◌, replicate};
ghost use Rattle.model.specs.Starred.{counting};
ghost use Rattle.cases.specs.Seen.{none, store_after_cut, cut_after, further_post};

use device::calls;
use model::{Answer, Device, Refusal, Totals};
use runtime;
use store::format;

// "M 2, T 1, E 1, 26 words"
#[tactic(auto, unfolding(model::specs::Starred::counting))]
pub fn counting() -> [u16; 26]
    ensures { result ≡ counting }
{
    [
        0xC0B1, 0x0001, 0x0001, 0x0002, 0x0000, 0x001A, 0x000C, 0x0005, 0x0000, 0x0016, 0x0002,
        0x0000, 0x0800, 0x0000, 0x0010, 0x0001, 0x0201, 0x0000, 0x0900, 0x0000, 0x0F00, 0x0000,
        0x0900, 0x0001, 0x1000, 0x0000,
    ]
}

fn none() -> Totals
    ensures { result ≡ none }
{
    Totals {
        committed: 0,
        accepted: 0,
        stores: 0,
    }
}

// On a store formatted with L and Q 1: boot, steps, a cut, a boot, recovery steps.
fn cut_in(program: &[u16], store: &mut [u16], steps: u32, recovery: u32)
    ensures { store.new ≡ store_after_cut program.now store.old steps recovery }
{
    let _ = format::format(program, 1, 1, store);
    let on = calls::boot(program, store, Device::OFF);
    let _ = runtime::run(program, store, on.device, none(), steps);
    let off = calls::cut();
    let again = calls::boot(program, store, off.device);
    let _ = runtime::run(program, store, again.device, none(), recovery);
}

// The phase, and memory words 0 and 1, after that.
#[tactic(auto, unfolding(crate::specs::Seen::cut_after))]
pub fn cut_after(steps: u32, recovery: u32) -> [u16; 3]
    ensures { result ≡ cut_after steps recovery }
{
    let program = counting();
    let mut store = [0; 25];
    cut_in(&program, &mut store, steps, recovery);
    [store[8], store[17], store[18]]
}

// "Boot, 9 steps, cut: recovered memory 0, 0."
#[tactic(auto, using(crate::proofs::Shown::seen))]
pub fn nine_steps() -> [u16; 3]
    ensures { result ≡ 0 ∷ 0 ∷ 0 ∷ [] }
{
    cut_after(9, 0)
}

// "After 10 steps: 1, 0", by 5 recovery steps
#[tactic(auto, using(crate::proofs::Shown::seen))]
pub fn ten_steps() -> [u16; 3]
    ensures { result ≡ 0 ∷ 1 ∷ 0 ∷ [] }
{
    cut_after(10, 5)
}

// Four recovery steps aren't enough.
#[tactic(auto, using(crate::proofs::Shown::seen))]
pub fn ten_steps_but_one() -> [u16; 3]
    ensures { result ≡ 1 ∷ 1 ∷ 0 ∷ [] }
{
    cut_after(10, 4)
}

// On a store formatted with L and Q 1: boot, a post, steps; what a further post answers.
fn post_in(program: &[u16], store: &mut [u16], steps: u32) -> Answer
    ensures { result ≡ further_post program.now store.old steps }
{
    let _ = format::format(program, 1, 1, store);
    let on = calls::boot(program, store, Device::OFF);
    let posted = calls::post(program, store, on.device, 0, 7);
    let ran = runtime::run(program, store, posted.device, none(), steps);
    let further = calls::post(program, store, ran.device, 0, 7);
    further.answer
}

// The same of the counting program.
fn post_after(steps: u32) -> Answer
    ensures { result ≡ further_post counting (replicate 25 0) steps }
{
    let program = counting();
    let mut store = [0; 25];
    post_in(&program, &mut store, steps)
}

// "Post and 3 steps: accepted. A further post before the event commits: 21", now "only once the event has begun", which the fourth step does.
#[tactic(auto, using(crate::proofs::Shown::seen))]
pub fn further_post() -> Answer
    ensures { result ≡ Answer.Refused Refusal.QueueFull }
{
    post_after(4)
}

// Before that it drops the record at head.
#[tactic(auto, using(crate::proofs::Shown::seen))]
pub fn post_at_once() -> Answer
    ensures { result ≡ Answer.Done }
{
    post_after(3)
}
