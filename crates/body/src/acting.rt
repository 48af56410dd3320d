// What an instruction does, and the store of its step: LOAD and SAVE here, the ends of a body in ending.rt.
ghost use Rattle.std.specs.Prelude.{ℕ, ◌≤◌, ◌<◌, ◌≡◌};
ghost use Rattle.model.specs.Device.{end_stores, place_fits, shown, save_step, save_rest};
ghost use Rattle.model.specs.Program.{word};
ghost use Rattle.model.specs.Store.{view, find};
ghost use Rattle.model.specs.Accepted.{Shaped, Looked};
ghost use Rattle.device.specs.Result.{device, of_core, leaves, OnAnyRegisters, place_step_of};
ghost use Rattle.body.specs.Running.{Running, Fetches, OfBody, acts, fetched_at, FetchesAt};

use super::ending;
use device::{Core, CoreResult, results};
use model::{Body, Effect, Place, Refusal};
use store::{log, memory};

// "a commit begun in phase 0 without a body at GO or DONE"
#[tactic(auto, using(model::proofs::TestLaws::tests), unfolding(model::specs::Device::place_fits, model::specs::Test::either))]
fn fits(made: u16, effect: Effect) -> bool
    ensures { (b : Body) (j : ℕ) → result ≡ place_fits (Place.Run b j made) effect }
{
    made == 0 || ending::ends(effect)
}

// What an address shows: the log's value for it, if there is one, else memory's.
#[tactic(auto, unfolding(model::specs::Device::shown))]
fn shown(store: &[u16], log_count: u16, address: u16) -> u16
    requires shaped { Shaped store.now }
    requires log_count_bound { log_count ≤ word store.now 2 }
    requires address_bound { address < word store.now 1 }
    ensures { result ≡ (let v = view store.now in shown v (find v.log log_count address) address) }
{
    match log::find(store, log_count, address) {
        Some(pair) => log::value(store, pair),
        None => memory::read(store, address),
    }
}

// A read of an address into a register. "23: address k + b not below M."
#[tactic(auto, using(model::proofs::TestLaws::tests), unfolding(model::specs::Device::act, model::specs::Device::with_place, model::specs::Test::pick, model::specs::Store::settled, model::specs::Store::stored_word))]
fn load(
    program: &[u16],
    store: &[u16],
    registers: &mut [u16; 8],
    core: Core,
    body: Body,
    instruction: u16,
    register: u16,
    address: u32,
) -> CoreResult
    requires running { Running program.now store.now body }
    requires fetches { Fetches program.now body instruction (Effect.Load register address) }
    requires count_bound { core.count ≤ word store.now 2 }
    ensures { of_core result registers.new store.now
        ≡ leaves (acts program.now body instruction 0 (Effect.Load register address))
        store.now (device core registers.old) }
{
    if address >= program[3] as u32 {
        return results::refused(core, Refusal::Address);
    }
    registers[register as usize] = shown(store, core.count, address as u16);
    results::worked(core, body, instruction + 1)
}

// A SAVE to an address that isn't in the log. "24: .. with L pairs there."
#[tactic(auto, using(model::proofs::TestLaws::tests), unfolding(model::specs::Device::save_step, model::specs::Device::with_place, model::specs::Test::pick, model::specs::Store::settled, model::specs::Store::stored_word))]
fn append(store: &mut [u16], core: Core, body: Body, instruction: u16, address: u16) -> CoreResult
    requires { Shaped store.old }
    ensures { OnAnyRegisters core result store.new
        (leaves (λ v d. save_step v d body instruction address 0 None) store.old) }
{
    let log_count = core.count;
    if log_count >= store[2] {
        return results::refused(core, Refusal::LogFull);
    }
    let word = log::write_address(store, log_count, address);
    results::stored(core, Place::Half(body, instruction), log_count, word)
}

// A SAVE of a value to an address.
#[tactic(auto, using(model::proofs::TestLaws::tests), unfolding(model::specs::Device::act, model::specs::Device::save_step, model::specs::Device::with_place, model::specs::Test::pick, model::specs::Store::settled, model::specs::Store::stored_word))]
fn save(
    program: &[u16],
    store: &mut [u16],
    core: Core,
    body: Body,
    instruction: u16,
    address: u32,
    value: u16,
) -> CoreResult
    requires running { Running program.now store.old body }
    requires fetches { Fetches program.now body instruction (Effect.Save address value) }
    requires count_bound { core.count ≤ word store.old 2 }
    ensures { OnAnyRegisters core result store.new
        (leaves (acts program.now body instruction 0 (Effect.Save address value)) store.old) }
{
    if program[3] as u32 <= address {
        return results::refused(core, Refusal::Address);
    }
    let address = address as u16;
    match log::find(store, core.count, address) {
        Some(pair) => {
            let word = log::write_value(store, pair, value);
            results::stored(core, Place::Run(body, instruction + 1, 0), core.count, word)
        }
        None => append(store, core, body, instruction, address),
    }
}

// The value of half a SAVE, "without looking again at address or log".
#[tactic(auto, unfolding(model::specs::Device::save_rest, model::specs::Device::with_place, model::specs::Store::settled, model::specs::Store::stored_word))]
fn save_rest(
    store: &mut [u16],
    core: Core,
    body: Body,
    instruction: u16,
    effect: Effect,
) -> CoreResult
    requires shaped { Shaped store.old }
    requires count_bound { core.count < word store.old 2 }
    requires instruction_bound { instruction < 65535 }
    ensures { OnAnyRegisters core result store.new
        (leaves (λ v d. save_rest d body instruction effect) store.old) }
{
    match effect {
        Effect::Save(_, value) => {
            let log_count = core.count;
            let word = log::write_value(store, log_count, value);
            results::stored(
                core,
                Place::Run(body, instruction + 1, 0),
                log_count + 1,
                word,
            )
        }
        _ => results::refused(core, Refusal::State),
    }
}

// What an instruction does, the one at number `at` of its body, and the step's store.
#[tactic(auto, unfolding(model::specs::Device::act, model::specs::Device::with_place, model::specs::Store::settled, model::specs::Store::stored_word))]
fn act(
    program: &[u16],
    store: &mut [u16],
    registers: &mut [u16; 8],
    core: Core,
    body: Body,
    at: u16,
    made: u16,
    effect: Effect,
) -> CoreResult
    requires running { Running program.now store.old body }
    requires fetches { Fetches program.now body at effect }
    requires count_bound { core.count ≤ word store.old 2 }
    requires made_bound { made < end_stores body }
    ensures { of_core result registers.new store.new
        ≡ leaves (acts program.now body at made effect) store.old (device core registers.old) }
{
    match effect {
        Effect::Compute(register, value) => {
            registers[register as usize] = value;
            results::worked(core, body, at + 1)
        }
        Effect::Jump(target) => results::worked(core, body, target),
        Effect::Load(into, address) => {
            load(program, store, registers, core, body, at, into, address)
        }
        Effect::Save(address, value) => save(program, store, core, body, at, address, value),
        Effect::EndTask(task) => {
            ending::end_task(program, store, registers, core, body, at, made, task)
        }
        Effect::EndEvent => ending::end_event(store, registers, core, body, at, made),
        Effect::Unknown => results::refused(core, Refusal::State),
    }
}

// What was fetched is performed: an instruction, which may have made stores of its end, or the value of a SAVE whose address is stored.
pub fn perform(
    program: &[u16],
    store: &mut [u16],
    registers: &mut [u16; 8],
    core: Core,
    effect: Effect,
) -> CoreResult
    requires looked { Looked program.now store.old (device core registers.old) }
    requires of_body { OfBody core.place }
    requires fetched { fetched_at program.now (view store.old) registers.old core.place ≡ Ok effect }
    requires fetches_at { FetchesAt program.now core.place effect }
    ensures { of_core result registers.new store.new
        ≡ leaves (place_step_of program.now) store.old (device core registers.old) }
{
    let place = core.place;
    match place {
        Place::Free(_) => results::refused(core, Refusal::State),
        Place::Run(body, instruction, made) => {
            if !fits(made, effect) {
                return results::refused(core, Refusal::State);
            }
            act(
                program,
                store,
                registers,
                core,
                body,
                instruction,
                made,
                effect,
            )
        }
        Place::Half(body, instruction) => save_rest(store, core, body, instruction, effect),
    }
}
