// A running body's step: fetching.rt has the checks that are left for it and what its instruction does, acting.rt what comes of that, and
// ending.rt the stores of its end. Each step makes its own store; the registers are lent, and the rest of the device goes by value.

#![tactic(auto)]

ghost use Rattle.std.specs.Prelude.{◌≡◌};
ghost use Rattle.model.specs.Accepted.{Looked};
ghost use Rattle.device.specs.Result.{device, of_core, leaves, place_step_of};
ghost use Rattle.body.specs.Running.{OfBody};

use device::{Core, CoreResult, results};

mod acting;
mod ending;
mod fetching;

// The step of a body at its place: what is fetched is refused or performed. One call of `fetch` serves both places.
pub fn body_step(
    program: &[u16],
    store: &mut [u16],
    registers: &mut [u16; 8],
    core: Core,
) -> CoreResult
    requires looked { Looked program.now store.old (device core registers.old) }
    requires of_body { OfBody core.place }
    ensures { of_core result registers.new store.new
        ≡ leaves (place_step_of program.now) store.old (device core registers.old) }
{
    let body = fetching::body_at(core.place);
    let instruction = fetching::instruction_at(core.place);
    match fetching::fetch(program, store, registers, body, instruction) {
        Ok(effect) => acting::perform(program, store, registers, core, effect),
        Err(why) => results::refused(core, why),
    }
}
