// A commit's stores in phases 1 and 2, after the commit store: the pairs of the log are copied to memory, then come the last stores.
ghost use Rattle.std.specs.Prelude.{◌≤◌, ◌<◌, length, ◌≡◌};
ghost use Rattle.model.specs.Device.{copy_step, task_last_stores, event_last_stores};
ghost use Rattle.model.specs.Program.{word};
ghost use Rattle.model.specs.Store.{memory_at};
ghost use Rattle.model.specs.Accepted.{Contents, ShapedFor, Looked};
ghost use Rattle.device.specs.Result.{device, of_core, leaves, OnAnyRegisters};
ghost use Rattle.steps.specs.Steps.{last_store};

use control::single;
use device::{Core, CoreResult, results};
use model::{Answer, Place};
use store::{log, memory};

// "n copies": a pair goes to memory. "7: .. the first n log addresses below M."
#[tactic(auto, using(model::proofs::TestLaws::tests), unfolding(model::specs::Device::copy_step, model::specs::Device::judged, model::specs::Device::with_place, model::specs::Test::pick, model::specs::Store::settled, model::specs::Store::stored_word))]
fn copy(program: &[u16], store: &mut [u16], core: Core, pair: u16) -> CoreResult
    requires contents { Contents program.now }
    requires shaped_for { ShapedFor program.now store.old }
    requires pair_bound { (pair < word store.old 11) × (word store.old 11 ≤ word store.old 2) }
    ensures { OnAnyRegisters core result store.new
        (leaves (λ v d. copy_step program.now v d pair) store.old) }
{
    if let Err(why) = single::pair_address(program, store, pair) {
        return results::refused(core, why);
    }
    let address = log::address(store, pair);
    let value = log::value(store, pair);
    let word = memory::write(store, address, value);
    results::stored(core, Place::Free(pair + 1), core.count, word)
}

// "9 from 12, 10 from 13, 8 becomes 0", and "0 in it just before the last store": of these `last` are made, and `made` since the commit store.
fn task_last(
    store: &mut [u16],
    registers: &mut [u16; 8],
    core: Core,
    made: u16,
    last: u16,
) -> CoreResult
    requires control_words { memory_at ≤ length store.old }
    requires last_bound { (last < 4) × (made < 1000) }
    ensures { of_core result registers.new store.new
        ≡ leaves (last_store task_last_stores last made) store.old (device core registers.old) }
{
    if last == 0 {
        store[9] = store[12];
        return results::stored(core, Place::Free(made + 1), core.count, Some(9));
    }
    if last == 1 {
        store[10] = store[13];
        return results::stored(core, Place::Free(made + 1), core.count, Some(10));
    }
    if last == 2 {
        store[16] = 0;
        return results::stored(core, Place::Free(made + 1), core.count, Some(16));
    }
    store[8] = 0;
    results::turned_on(registers, Answer::Stored)
}

// "14 from 12, 8 becomes 0", likewise.
fn event_last(
    store: &mut [u16],
    registers: &mut [u16; 8],
    core: Core,
    made: u16,
    last: u16,
) -> CoreResult
    requires control_words { memory_at ≤ length store.old }
    requires last_bound { (last < 3) × (made < 1000) }
    ensures { of_core result registers.new store.new
        ≡ leaves (last_store event_last_stores last made) store.old (device core registers.old) }
{
    if last == 0 {
        store[14] = store[12];
        return results::stored(core, Place::Free(made + 1), core.count, Some(14));
    }
    if last == 1 {
        store[16] = 0;
        return results::stored(core, Place::Free(made + 1), core.count, Some(16));
    }
    store[8] = 0;
    results::turned_on(registers, Answer::Stored)
}

// "A commit makes its next store": so many are made since the commit store.
pub fn copy_step(
    program: &[u16],
    store: &mut [u16],
    registers: &mut [u16; 8],
    core: Core,
    made: u16,
) -> CoreResult
    requires looked { Looked program.now store.old (device core registers.old) }
    requires committing { (core.place ≡ Place.Free made) × (word store.old 8 ≡ 0 → ⊥) }
    ensures { of_core result registers.new store.new
        ≡ leaves (λ v d. copy_step program.now v d made)
        store.old (device core registers.old) }
{
    let copies = store[11];
    if made < copies {
        return copy(program, store, core, made);
    }
    let last = made - copies;
    if store[8] == 1 {
        return task_last(store, registers, core, made, last);
    }
    event_last(store, registers, core, made, last)
}
