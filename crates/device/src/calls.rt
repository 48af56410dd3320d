// The calls that store nothing: boot, post and cut, with the checks of the first two.
ghost use Rattle.std.specs.Prelude.{◌≤◌, ◌≡◌};
ghost use Rattle.model.specs.Accepted.{Bootable, Shaped};
ghost use Rattle.model.specs.Burst.{carried, single};
ghost use Rattle.model.specs.Device.{turned_on, out, judged, with_place, with_handler, begun_of, taken_up, boot_check, cut, takes, post_check, set_to_work};
ghost use Rattle.model.specs.Program.{first_registers, word};
ghost use Rattle.model.specs.Store.{view, none};
ghost use Rattle.device.specs.Result.{of_call, OnAnyStore, BootPerforms, PostPerforms};

use super::{CallResult, burst, look};
use model::{Answer, Body, Device, Handler, Place, Refusal};
use store::{contents, queue};

// "Boot .. turns that value on."
#[tactic(auto, unfolding(model::specs::Device::fresh))]
fn turned_on() -> Device
    ensures { result ≡ turned_on }
{
    Device {
        on: true,
        ..Device::OFF
    }
}

// What a call that stores nothing answers, and the device after it.
#[tactic(auto, unfolding(model::specs::Store::settled, model::specs::Store::stored_word))]
fn storing_nothing(answer: Answer, device: Device) -> CallResult
    ensures { OnAnyStore (of_call result) (out none device answer) }
{
    CallResult {
        answer,
        stored: None,
        device,
    }
}

// "boot 1 to 7, 26"
#[tactic(auto, using(model::proofs::TestLaws::in_a_row, model::proofs::TestLaws::tests, model::proofs::Passed::gives), unfolding(model::specs::Device::boot_check, model::specs::Test::must, model::specs::Test::in_turn))]
fn boot_check(program: &[u16], store: &[u16], device: Device) -> Result<(), Refusal>
    ensures value { result ≡ boot_check program.now store.now device }
    ensures given { result ≡ Ok tt → Bootable program.now store.now }
{
    program::check(program)?;
    contents::store_rule(program, store)?;
    control::whole(program, store)?;
    if device.on {
        return Err(Refusal::PowerOn);
    }
    Ok(())
}

// A device turned on that runs a body at its first instruction, "registers as at choosing".
#[tactic(auto, unfolding(model::specs::Device::fresh, model::specs::Device::with_place, model::specs::Program::first_registers))]
fn started(body: Body, datum: u16) -> Device
    ensures { result ≡ with_place turned_on (first_registers datum) (Place.Run body 0 0) 0 }
{
    Device {
        registers: [datum, 0, 0, 0, 0, 0, 0, 0],
        place: Place::Run(body, 0, 0),
        ..turned_on()
    }
}

// "a boot in phase 0 takes up the begun body": the current task, or the event of the record at head.
#[tactic(auto, using(model::proofs::TestLaws::tests), unfolding(model::specs::Device::taken_up, model::specs::Device::begun_of, model::specs::Device::started, model::specs::Device::data_for, model::specs::Device::fresh, model::specs::Test::pick))]
fn taken_up(store: &[u16]) -> Device
    requires shaped { Shaped store.now }
    requires store_bound { word store.now 14 ≤ word store.now 3 }
    ensures { result ≡ taken_up (view store.now) (begun_of (view store.now)) }
{
    if store[8] != 0 {
        return turned_on();
    }
    if store[16] == 1 {
        return started(Body::Task(store[9]), 0);
    }
    if store[16] == 2 {
        let event = queue::head_event(store);
        return started(Body::Event(event), queue::head_datum(store));
    }
    turned_on()
}

// Boot: a device that is off is turned on, and no word of the store changes.
#[tactic(auto, unfolding(model::specs::Device::boot, model::specs::Device::judged))]
pub fn boot(program: &[u16], store: &[u16], device: Device) -> CallResult
    ensures { BootPerforms program.now store.now device result }
{
    match boot_check(program, store, device) {
        Ok(()) => storing_nothing(Answer::Done, taken_up(store)),
        Err(why) => storing_nothing(Answer::Refused(why), device),
    }
}

// "post then 8, 20, 21", and 33 "just before 8".
#[tactic(auto, using(model::proofs::TestLaws::in_a_row, model::proofs::TestLaws::tests, model::proofs::Passed::gives, crate::proofs::Bursts::by_length), unfolding(model::specs::Device::post_check, model::specs::Test::must, model::specs::Test::in_turn, model::specs::Test::both, model::specs::Burst::is_burst))]
pub fn post_check(
    program: &[u16],
    store: &[u16],
    device: Device,
    length: u16,
    words: &[u16; 8],
) -> Result<(), Refusal>
    ensures { result ≡ post_check program.now store.now device (carried words.now length) }
{
    look::look_whole(program, store, device)?;
    if length < 1 || length > 4 {
        return Err(Refusal::BurstLength);
    }
    burst::events(program, words, length)?;
    if !look::at_rest(device.handler) {
        return Err(Refusal::HandlerBusy);
    }
    if !takes(store, length) {
        return Err(Refusal::QueueFull);
    }
    Ok(())
}

// Does the queue take so many records: is there room for them, or may a single one drop the oldest?
#[tactic(auto, using(crate::proofs::Bursts::taking))]
fn takes(store: &[u16], length: u16) -> bool
    requires shaped { Shaped store.now }
    requires store_bound { (word store.now 14 ≤ word store.now 3) × (word store.now 15 ≤ word store.now 3) }
    ensures { result ≡ takes (view store.now) length }
{
    length <= queue::room(store) || length == 1 && look::may_drop(store)
}

// The handler for so many records that the queue takes: where there is no room for them, one that drops the oldest.
#[tactic(auto, using(crate::proofs::Bursts::taking))]
pub fn set_to_work(store: &[u16], length: u16) -> Handler
    requires shaped { Shaped store.now }
    requires store_bound { (word store.now 14 ≤ word store.now 3) × (word store.now 15 ≤ word store.now 3) }
    ensures { result ≡ set_to_work (view store.now) length }
{
    if queue::room(store) < length {
        Handler::Dropping
    } else {
        Handler::Storing(length, 0)
    }
}

// A post of a burst: the handler is set to work on so many records, and no word of the store changes. The words behind them aren't looked at.
#[tactic(auto, using(crate::proofs::Bursts::by_length), unfolding(model::specs::Device::post, model::specs::Device::judged, model::specs::Device::with_handler))]
pub fn burst(
    program: &[u16],
    store: &[u16],
    device: Device,
    length: u16,
    words: &[u16; 8],
) -> CallResult
    ensures { PostPerforms program.now store.now device (carried words.now length) result }
{
    match post_check(program, store, device, length, words) {
        Ok(()) => {
            let at_work = Device {
                handler: set_to_work(store, length),
                burst: burst::words(words, length),
                ..device
            };
            storing_nothing(Answer::Done, at_work)
        }
        Err(why) => storing_nothing(Answer::Refused(why), device),
    }
}

// "A single post is a burst of one."
#[tactic(auto, unfolding(model::specs::Burst::records_at, model::specs::Store::slot))]
pub fn post(program: &[u16], store: &[u16], device: Device, event: u16, datum: u16) -> CallResult
    ensures { PostPerforms program.now store.now device (single event datum) result }
{
    let words = [event, datum, 0, 0, 0, 0, 0, 0];
    burst(program, store, device, 1, &words)
}

// Cut: the device is off, whatever it was. "A cut refuses nothing", and no word of a store changes.
#[tactic(auto, unfolding(model::specs::Device::cut, model::specs::Device::fresh))]
pub fn cut() -> CallResult
    ensures { OnAnyStore (of_call result) cut }
{
    storing_nothing(Answer::Done, Device::OFF)
}
