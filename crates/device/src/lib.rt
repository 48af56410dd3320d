// The device of document 01. look.rt has what a call looks at before it does anything, with refusal 25; calls.rt the calls that store
// nothing: boot, post and cut; burst.rt what a post carries and a handler keeps; results.rt what a step answers and leaves.
// A call that a host makes takes the device by value and refuses what it must: none has a `requires`. Inside, the
// registers and the handler's burst are lent and the rest goes by value, the handler apart from the `Core`, so that a step copies nothing that it leaves.

#![tactic(auto)]

ghost use Rattle.std.specs.Prelude.{◌≡◌};
ghost use Rattle.device.specs.Result.{core_of};

use model::{Answer, Device, Handler, Place};

pub mod burst;
pub mod calls;
pub mod look;
pub mod results;

// The device apart from its registers and its handler. What a step of a body, of a commit or of choosing changes is here and in the
// registers, for its handler is at rest.
#[derive(Clone, Copy)]
pub struct Core {
    pub on: bool,
    pub count: u16,
    pub place: Place,
}

// What one call answers, which word it stored, and the device after it, apart from its registers and its handler.
#[derive(Clone, Copy)]
pub struct CoreResult {
    pub answer: Answer,
    pub stored: Option<u16>,
    pub core: Core,
}

// What one step answers, which word it stored, and the device after it, apart from its registers and its burst.
#[derive(Clone, Copy)]
pub struct StepResult {
    pub answer: Answer,
    pub stored: Option<u16>,
    pub handler: Handler,
    pub core: Core,
}

// What one call answers, which word it stored, and the device after it.
#[derive(Clone, Copy)]
pub struct CallResult {
    pub answer: Answer,
    pub stored: Option<u16>,
    pub device: Device,
}

// A device without its registers and its handler.
pub fn core_of(device: Device) -> Core
    ensures { result ≡ core_of device }
{
    Core {
        on: device.on,
        place: device.place,
        count: device.count,
    }
}
