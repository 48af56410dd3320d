// The stores with which GO and DONE end a body, up to the commit store.
ghost use Rattle.std.specs.Prelude.{ℕ, ◌≤◌, ◌<◌, List, ◌≡◌};
ghost use Rattle.model.specs.Device.{ends};
ghost use Rattle.model.specs.Program.{word, new_open};
ghost use Rattle.model.specs.Accepted.{Shaped};
ghost use Rattle.device.specs.Result.{device, of_core, leaves};
ghost use Rattle.body.specs.Running.{Running, Fetches, acts};

use super::fetching;
use device::{Core, CoreResult, results};
use model::{Answer, Body, Effect, Place};
use program::rows;
use store::queue;

// GO and DONE end a body.
#[tactic(auto, unfolding(model::specs::Device::ends))]
pub fn ends(effect: Effect) -> bool
    ensures { result ≡ ends effect }
{
    matches!(effect, Effect::EndTask(_) | Effect::EndEvent)
}

// "The new open number is the ended task's if that isn't 0 and the next task has the same; otherwise 0."
#[tactic(auto, using(model::proofs::TestLaws::tests), unfolding(model::specs::Program::new_open, model::specs::Test::pick))]
fn new_open(ended: u16, next: u16) -> u16
    ensures { result ≡ new_open ended next }
{
    if ended == next { ended } else { 0 }
}

// The next store of GO: "11 is n, 12 the next task, 13 the new open number, 8 becomes 1 (the commit store)".
#[tactic(auto, using(model::proofs::TestLaws::tests), unfolding(model::specs::Device::act, model::specs::Device::with_place, model::specs::Device::storing, model::specs::Device::task_stores, model::specs::Test::pick, model::specs::Store::settled, model::specs::Store::stored_word))]
pub fn end_task(
    program: &[u16],
    store: &mut [u16],
    registers: &mut [u16; 8],
    core: Core,
    body: Body,
    instruction: u16,
    made: u16,
    task: u16,
) -> CoreResult
    requires running { Running program.now store.old body }
    requires fetches { Fetches program.now body instruction (Effect.EndTask task) }
    requires made_bound { made < 4 }
    ensures { of_core result registers.new store.new
        ≡ leaves (acts program.now body instruction made (Effect.EndTask task))
        store.old (device core registers.old) }
{
    let log_count = core.count;
    let place = Place::Run(body, instruction, made + 1);
    if made == 0 {
        store[11] = log_count;
        return results::stored(core, place, log_count, Some(11));
    }
    if made == 1 {
        store[12] = task;
        return results::stored(core, place, log_count, Some(12));
    }
    if made == 2 {
        let number = fetching::body_number(program, body);
        store[13] = new_open(
            rows::transaction(program, number),
            rows::transaction(program, task),
        );
        return results::stored(core, place, log_count, Some(13));
    }
    store[8] = 1;
    results::turned_on(registers, Answer::Committed(body))
}

// The next store of DONE: "11, 12 with the slot after head, 8 becomes 2".
#[tactic(auto, using(model::proofs::TestLaws::tests), unfolding(model::specs::Device::act, model::specs::Device::with_place, model::specs::Device::storing, model::specs::Device::event_stores, model::specs::Test::pick, model::specs::Store::settled, model::specs::Store::stored_word))]
pub fn end_event(
    store: &mut [u16],
    registers: &mut [u16; 8],
    core: Core,
    body: Body,
    instruction: u16,
    made: u16,
) -> CoreResult
    requires shaped { Shaped store.old }
    requires store_bound { word store.old 14 ≤ word store.old 3 }
    requires made_bound { made < 3 }
    ensures { (p : List ℕ) → of_core result registers.new store.new
        ≡ leaves (acts p body instruction made Effect.EndEvent) store.old (device core registers.old) }
{
    let log_count = core.count;
    let place = Place::Run(body, instruction, made + 1);
    if made == 0 {
        store[11] = log_count;
        return results::stored(core, place, log_count, Some(11));
    }
    if made == 1 {
        let head = store[14];
        let next = queue::slot_after(store[3], head);
        store[12] = next;
        return results::stored(core, place, log_count, Some(12));
    }
    store[8] = 2;
    results::turned_on(registers, Answer::Committed(body))
}
