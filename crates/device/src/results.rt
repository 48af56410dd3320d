// What a step answers, which word it stored, and the device after it apart from its registers: as it was, at another place, at the start
// of a body, or the off value turned on.
ghost use Rattle.std.specs.Prelude.{replicate, ◌≡◌};
ghost use Rattle.model.specs.Program.{first_registers};
ghost use Rattle.device.specs.Result.{core_at, on_core, core_result};

use super::{Core, CoreResult};
use model::{Answer, Body, Place, Refusal};

// Another place and another log count.
pub fn at_place(core: Core, place: Place, log_count: u16) -> Core
    ensures { result ≡ core_at core place log_count }
{
    Core {
        place,
        count: log_count,
        ..core
    }
}

// A refusal: the device stays as it is.
pub fn refused(core: Core, why: Refusal) -> CoreResult
    ensures { result ≡ core_result (Answer.Refused why) None core }
{
    CoreResult {
        answer: Answer::Refused(why),
        stored: None,
        core,
    }
}

// The body goes on at this instruction.
pub fn worked(core: Core, body: Body, instruction: u16) -> CoreResult
    ensures { result ≡ core_result Answer.Worked None (core_at core (Place.Run body instruction 0) core.count) }
{
    let core = at_place(core, Place::Run(body, instruction, 0), core.count);
    CoreResult {
        answer: Answer::Worked,
        stored: None,
        core,
    }
}

// A store was made, to this word.
pub fn stored(core: Core, place: Place, log_count: u16, stored: Option<u16>) -> CoreResult
    ensures { result ≡ core_result Answer.Stored stored (core_at core place log_count) }
{
    let core = at_place(core, place, log_count);
    CoreResult {
        answer: Answer::Stored,
        stored,
        core,
    }
}

// "Registers become 0, except that register 0 gets an event's data. The log count becomes 0." Choosing has stored word 16.
pub fn begin(registers: &mut [u16; 8], core: Core, body: Body, datum: u16) -> CoreResult
    ensures { (result ≡ core_result (Answer.Chosen body) (Some 16) (core_at core (Place.Run body 0 0) 0))
        × (registers.new ≡ first_registers datum) }
{
    *registers = [datum, 0, 0, 0, 0, 0, 0, 0];
    let core = at_place(core, Place::Run(body, 0, 0), 0);
    CoreResult {
        answer: Answer::Chosen(body),
        stored: Some(16),
        core,
    }
}

// "At the commit store and at a commit's last store the device becomes the off value turned on."
// Both store the phase.
pub fn turned_on(registers: &mut [u16; 8], answer: Answer) -> CoreResult
    ensures { (result ≡ core_result answer (Some 8) on_core) × (registers.new ≡ replicate 8 0) }
{
    *registers = [0; 8];
    let core = Core {
        on: true,
        place: Place::Free(0),
        count: 0,
    };
    CoreResult {
        answer,
        stored: Some(8),
        core,
    }
}
