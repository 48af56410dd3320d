// A step past its early checks: document 01's four cases, "first that applies". Each makes its own store, at most one, on the lent words.
// A commit's stores in phases 1 and 2 are in copying.rt, a running body's in the crate body.

#![tactic(auto)]

ghost use Rattle.std.specs.Prelude.{ℕ, ◌+◌, ◌*◌, ◌≤◌, List, ◌≡◌};
ghost use Rattle.model.specs.Device.{handler_step, drop_step, dropped_record, event_next, choose_step, place_step};
ghost use Rattle.model.specs.Program.{word};
ghost use Rattle.model.specs.Store.{view};
ghost use Rattle.model.specs.Accepted.{Contents, Shaped, ShapedFor, Looked};
ghost use Rattle.model.specs.declared.Handler.{Handler};
ghost use Rattle.device.specs.Result.{Eight, device_with, device, step_result, of_step, of_core, leaves, place_step_of, next_step_of};

use body;
use control::single;
use device::{Core, CoreResult, StepResult, results};
use model::{Answer, Body, Handler, Place, Record};
use store::queue;

mod copying;

// "A handler at work makes its next store": of each event, of its data, "and then accepted by one tail store": so many of them are made, of so
// many records. After a store that isn't the last it is `later`, and the last one tells what was dropped for them.
fn handler_step(
    store: &mut [u16],
    burst: &mut [u16; 8],
    core: Core,
    length: u16,
    made: u16,
    later: Handler,
    dropped: Option<Record>,
) -> StepResult
    requires shaped { Shaped store.old }
    requires store_bound { (word store.old 15 ≤ word store.old 3) × (length ≤ word store.old 3) }
    requires length_bound { (length ≤ 4) × (made ≤ 2 * length) }
    requires eight { Eight burst.old }
    ensures on_any { (registers : List ℕ) (handler : Handler) → of_step result registers burst.new store.new
        ≡ leaves (λ v d. handler_step v d length made later dropped) store.old (device_with core registers handler burst.old) }
    ensures eight_after { Eight burst.new }
{
    let tail = store[15];
    if made < 2 * length {
        let value = burst[made as usize];
        let word = queue::write_ahead(store, tail, made, value);
        return handler_result(core, later, Answer::Stored, word);
    }
    store[15] = queue::forward(store[3], tail, length);
    *burst = [0; 8];
    handler_result(core, Handler::Resting, Answer::Accepted(dropped), Some(15))
}

// "drops the record at head by storing head first": the record is checked as one chosen is.
#[tactic(auto, unfolding(model::specs::Device::drop_step, model::specs::Device::judged, model::specs::Device::with_handler, model::specs::Store::settled, model::specs::Store::stored_word))]
fn drop_step(program: &[u16], store: &mut [u16], core: Core) -> StepResult
    requires contents { Contents program.now }
    requires shaped_for { ShapedFor program.now store.old }
    requires store_bound { word store.old 14 ≤ word store.old 3 }
    ensures { (registers burst : List ℕ) → of_step result registers burst store.new
        ≡ leaves (drop_step program.now) store.old (device_with core registers Handler.Dropping burst) }
{
    if let Err(why) = single::record_at_head(program, store) {
        return handler_result(core, Handler::Dropping, Answer::Refused(why), None);
    }
    store[14] = queue::slot_after(store[3], store[14]);
    handler_result(core, Handler::Replacing(0), Answer::Stored, Some(14))
}

// The record that was dropped stands in the slot after tail.
fn dropped_record(store: &[u16]) -> Option<Record>
    requires shaped { Shaped store.now }
    requires store_bound { word store.now 15 ≤ word store.now 3 }
    ensures { result ≡ dropped_record (view store.now) }
{
    let slot = queue::slot_after(store[3], store[15]);
    Some(Record {
        event: queue::event(store, slot),
        datum: queue::datum(store, slot),
    })
}

// The next store of a burst of one that comes in the place of a dropped record.
fn replacing_step(store: &mut [u16], burst: &mut [u16; 8], core: Core, made: u16) -> StepResult
    requires shaped { Shaped store.old }
    requires store_bound { (word store.old 15 ≤ word store.old 3) × (1 ≤ word store.old 3) }
    requires made_bound { made ≤ 2 }
    requires eight { Eight burst.old }
    ensures on_any { (registers : List ℕ) (handler : Handler) → of_step result registers burst.new store.new
        ≡ leaves (λ v d. handler_step v d 1 made (Handler.Replacing (made + 1)) (dropped_record v))
        store.old (device_with core registers handler burst.old) }
    ensures eight_after { Eight burst.new }
{
    let dropped = dropped_record(store);
    let later = Handler::Replacing(made + 1);
    handler_step(store, burst, core, 1, made, later, dropped)
}

// A handler after its step, an answer and the word stored.
fn handler_result(core: Core, handler: Handler, answer: Answer, stored: Option<u16>) -> StepResult
    ensures { result ≡ step_result answer stored handler core }
{
    StepResult {
        answer,
        stored,
        handler,
        core,
    }
}

// Is the event at head next: "if word 10 is 0 and the queue isn't empty"?
#[tactic(auto, using(model::proofs::TestLaws::tests), unfolding(model::specs::Device::event_next, model::specs::Test::both))]
fn event_next(store: &[u16]) -> bool
    requires { Shaped store.now }
    ensures { result ≡ event_next (view store.now) }
{
    store[10] == 0 && !queue::is_empty(store)
}

// "the event at head; otherwise the current task": "Choosing stores it and still answers chosen".
fn choose_step(
    program: &[u16],
    store: &mut [u16],
    registers: &mut [u16; 8],
    core: Core,
) -> CoreResult
    requires { Looked program.now store.old (device core registers.old) }
    ensures { of_core result registers.new store.new
        ≡ leaves (choose_step program.now) store.old (device core registers.old) }
{
    if !event_next(store) {
        let task = store[9];
        store[16] = 1;
        return results::begin(registers, core, Body::Task(task), 0);
    }
    if let Err(why) = single::record_at_head(program, store) {
        return results::refused(core, why);
    }
    let event = queue::head_event(store);
    let datum = queue::head_datum(store);
    store[16] = 2;
    results::begin(registers, core, Body::Event(event), datum)
}

// With no body running: in phase 0 one is chosen, else a commit makes its next store.
fn free_step(
    program: &[u16],
    store: &mut [u16],
    registers: &mut [u16; 8],
    core: Core,
    made: u16,
) -> CoreResult
    requires looked { Looked program.now store.old (device core registers.old) }
    requires free { core.place ≡ Place.Free made }
    ensures { of_core result registers.new store.new
        ≡ leaves (λ v d. place_step program.now v d (Place.Free made))
        store.old (device core registers.old) }
{
    if store[8] == 0 {
        return choose_step(program, store, registers, core);
    }
    copying::copy_step(program, store, registers, core, made)
}

// The step of a handler at rest.
fn place_step(
    program: &[u16],
    store: &mut [u16],
    registers: &mut [u16; 8],
    core: Core,
) -> CoreResult
    requires { Looked program.now store.old (device core registers.old) }
    ensures { of_core result registers.new store.new
        ≡ leaves (place_step_of program.now) store.old (device core registers.old) }
{
    match core.place {
        Place::Free(made) => free_step(program, store, registers, core, made),
        _ => body::body_step(program, store, registers, core),
    }
}

// What a step leaves whose handler is at rest.
fn rested(left: CoreResult) -> StepResult
    ensures { result ≡ step_result left.answer left.stored Handler.Resting left.core }
{
    handler_result(left.core, Handler::Resting, left.answer, left.stored)
}

// "First that applies", after the early checks. A handler at rest has no burst.
pub fn next_step(
    program: &[u16],
    store: &mut [u16],
    registers: &mut [u16; 8],
    burst: &mut [u16; 8],
    handler: Handler,
    core: Core,
) -> StepResult
    requires looked { Looked program.now store.old (device_with core registers.old handler burst.old) }
    requires eight { Eight burst.old }
    ensures store_after { of_step result registers.new burst.new store.new
        ≡ leaves (next_step_of program.now) store.old
        (device_with core registers.old handler burst.old) }
    ensures eight_after { Eight burst.new }
{
    match handler {
        Handler::Resting => rested(place_step(program, store, registers, core)),
        Handler::Storing(length, made) => {
            let later = Handler::Storing(length, made + 1);
            handler_step(store, burst, core, length, made, later, None)
        }
        Handler::Dropping => drop_step(program, store, core),
        Handler::Replacing(made) => replacing_step(store, burst, core, made),
    }
}
