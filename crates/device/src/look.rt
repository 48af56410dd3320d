// What a call looks at before it does anything. Refusal 25, "state unlike program or store", has its parts one by one; `look` is what step
// and post ask first.
ghost use Rattle.std.specs.Prelude.{length, ◌≡◌, ◌≤◌};
ghost use Rattle.model.specs.Accepted.{Controlled, Contents, Looked, Shaped};
ghost use Rattle.model.specs.Burst.{carried};
ghost use Rattle.model.specs.Device.{last_stores, may_run, end_stores, place_sound, records_sound, may_drop, handler_sound, is_at_rest, is_fresh, zeros, device_sound, look};
ghost use Rattle.model.specs.Program.{word};
ghost use Rattle.model.specs.Store.{view};
ghost use Rattle.device.specs.Result.{device_with};

use super::{Core, burst, core_of};
use model::{Body, Device, Handler, Place, Refusal};
use store::{contents, queue};

// How many stores follow the copies of a commit.
#[tactic(auto, using(model::proofs::TestLaws::tests), unfolding(model::specs::Device::last_stores, model::specs::Device::task_last_stores, model::specs::Device::event_last_stores, model::specs::Test::pick))]
pub fn last_stores(store: &[u16]) -> u16
    requires { Shaped store.now }
    ensures { result ≡ length (last_stores (view store.now)) }
{
    if store[8] == 1 { 4 } else { 3 }
}

// How many stores GO makes up to the commit store, and DONE.
#[tactic(auto, unfolding(model::specs::Device::end_stores))]
pub fn end_stores(body: Body) -> u16
    ensures { result ≡ end_stores body }
{
    match body {
        Body::Task(_) => 4,
        Body::Event(_) => 3,
    }
}

// In phase 0: word 9's task, or an event below E while no transaction is open and a record waits; and of the kind that word 16 says.
#[tactic(auto, using(model::proofs::TestLaws::tests), unfolding(model::specs::Device::may_run, model::specs::Device::eligible, model::specs::Device::kind_of, model::specs::Test::both))]
fn may_run(program: &[u16], store: &[u16], body: Body) -> bool
    requires contents { Contents program.now }
    requires shaped { Shaped store.now }
    ensures { result ≡ may_run program.now (view store.now) body }
{
    match body {
        Body::Task(task) => task == store[9] && store[16] == 1,
        Body::Event(event) => {
            event < program[2] && store[10] == 0 && !queue::is_empty(store) && store[16] == 2
        }
    }
}

// Does the place fit the phase, with this log count?
#[tactic(auto, using(model::proofs::TestLaws::tests), unfolding(model::specs::Device::place_sound, model::specs::Test::both, model::specs::Test::pick))]
fn place_sound(program: &[u16], store: &[u16], log_count: u16, place: Place) -> bool
    requires contents { Contents program.now }
    requires shaped { Shaped store.now }
    requires controlled { Controlled program.now (view store.now) }
    ensures { result ≡ place_sound program.now (view store.now) log_count place }
{
    match place {
        Place::Free(made) => {
            if store[8] == 0 {
                made == 0 && store[16] == 0
            } else {
                made < store[11] + last_stores(store)
            }
        }
        Place::Run(body, _, made) => {
            store[8] == 0 && may_run(program, store, body) && made < end_stores(body)
        }
        Place::Half(body, _) => {
            store[8] == 0 && may_run(program, store, body) && log_count < store[2]
        }
    }
}

// A handler at work on so many records, so many of whose stores are made: one to four, all of their events below E, room for all of them in
// the queue, and a store left to make.
#[tactic(auto, using(model::proofs::TestLaws::tests, crate::proofs::Bursts::sound_by), unfolding(model::specs::Test::both))]
fn records_sound(program: &[u16], store: &[u16], burst: &[u16; 8], length: u16, made: u16) -> bool
    requires contents { Contents program.now }
    requires shaped { Shaped store.now }
    requires controlled { Controlled program.now (view store.now) }
    ensures { result ≡ records_sound program.now (view store.now) made (carried burst.now length) }
{
    1 <= length
        && length <= 4
        && burst::events(program, burst, length).is_ok()
        && length <= queue::room(store)
        && made <= 2 * length
}

// A handler at rest has no burst.
#[tactic(auto, using(model::proofs::TestLaws::tests), unfolding(model::specs::Device::handler_sound, model::specs::Burst::records_at, model::specs::Burst::known_events, model::specs::Store::slot, model::specs::Test::both))]
fn handler_sound(program: &[u16], store: &[u16], burst: &[u16; 8], handler: Handler) -> bool
    requires contents { Contents program.now }
    requires shaped { Shaped store.now }
    requires controlled { Controlled program.now (view store.now) }
    ensures { result ≡ handler_sound program.now (view store.now) burst.now handler }
{
    match handler {
        Handler::Resting => zeros(burst),
        Handler::Storing(length, made) => records_sound(program, store, burst, length, made),
        Handler::Dropping => burst[0] < program[2] && may_drop(store),
        Handler::Replacing(made) => records_sound(program, store, burst, 1, made),
    }
}

// May the record at head be dropped: of a full queue, and no event begun or being committed?
#[tactic(auto, using(model::proofs::TestLaws::tests), unfolding(model::specs::Device::may_drop, model::specs::Test::both))]
pub fn may_drop(store: &[u16]) -> bool
    requires shaped { Shaped store.now }
    requires store_bound { word store.now 15 ≤ word store.now 3 }
    ensures { result ≡ may_drop (view store.now) }
{
    queue::is_full(store) && store[16] != 2 && store[8] != 2
}

#[tactic(auto, unfolding(model::specs::Device::is_at_rest))]
pub fn at_rest(handler: Handler) -> bool
    ensures { result ≡ is_at_rest handler }
{
    matches!(handler, Handler::Resting)
}

#[tactic(auto, using(model::proofs::TestLaws::tests), unfolding(model::specs::Device::is_fresh, model::specs::Test::both))]
fn is_fresh(place: Place, handler: Handler) -> bool
    ensures { result ≡ is_fresh place handler }
{
    matches!(place, Place::Free(0)) && at_rest(handler)
}

// Are all words 0? Asked of their bits together, which is one test for eight.
#[tactic(auto, using(model::proofs::TestLaws::both_zero), unfolding(model::specs::Device::zeros, model::specs::Test::both))]
fn zeros(words: &[u16; 8]) -> bool
    ensures { result ≡ zeros words.now 8 }
{
    let bits = words[0]
        | words[1]
        | words[2]
        | words[3]
        | words[4]
        | words[5]
        | words[6]
        | words[7];
    bits == 0
}

// Refusal 25, without what needs a row, an instruction, a log pair or a record.
#[tactic(auto, using(model::proofs::TestLaws::tests), unfolding(model::specs::Device::device_sound, model::specs::Test::both, model::specs::Test::pick))]
fn device_sound(
    program: &[u16],
    store: &[u16],
    registers: &[u16; 8],
    burst: &[u16; 8],
    handler: Handler,
    core: Core,
) -> bool
    requires contents { Contents program.now }
    requires shaped { Shaped store.now }
    requires controlled { Controlled program.now (view store.now) }
    ensures { result ≡ device_sound program.now (view store.now)
        (device_with core registers.now handler burst.now) }
{
    if core.on {
        core.count <= store[2]
            && place_sound(program, store, core.count, core.place)
            && handler_sound(program, store, burst, handler)
    } else {
        zeros(registers) && core.count == 0 && is_fresh(core.place, handler) && zeros(burst)
    }
}

// What step and post look at: refusals 1, 2, 3, 6, 7, 25 and 22.
#[tactic(auto, using(model::proofs::TestLaws::in_a_row, model::proofs::TestLaws::tests, model::proofs::Passed::gives), unfolding(model::specs::Device::look, model::specs::Test::must, model::specs::Test::in_turn))]
pub fn look(
    program: &[u16],
    store: &[u16],
    registers: &[u16; 8],
    burst: &[u16; 8],
    handler: Handler,
    core: Core,
) -> Result<(), Refusal>
    ensures value { result ≡ look program.now store.now
        (device_with core registers.now handler burst.now) }
    ensures given { result ≡ Ok tt
        → Looked program.now store.now (device_with core registers.now handler burst.now) }
{
    program::contents(program)?;
    contents::store_rule(program, store)?;
    control::early(program, store)?;
    if !device_sound(program, store, registers, burst, handler, core) {
        return Err(Refusal::State);
    }
    if !core.on {
        return Err(Refusal::PowerOff);
    }
    Ok(())
}

// The same of a whole device.
pub fn look_whole(program: &[u16], store: &[u16], device: Device) -> Result<(), Refusal>
    ensures value { result ≡ look program.now store.now device }
    ensures given { result ≡ Ok tt → Looked program.now store.now device }
{
    look(
        program,
        store,
        &device.registers,
        &device.burst,
        device.handler,
        core_of(device),
    )
}
