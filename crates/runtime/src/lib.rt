// Step and run over a program, a lent store and a device. Step: document 01's four cases, first that applies. Run: "repeats steps up to a
// budget (32 bits) and returns the count of steps made, with spent or the refusal".
// The device is taken apart once and put together once; between, the registers and the handler's burst are lent and the totals go by value. The early checks
// aren't repeated where what the last step stored and answered tells that they pass.

#![tactic(auto)]

ghost use Rattle.std.specs.Prelude.{ℕ, ◌≤◌, length, true, List, ◌≡◌};
ghost use Rattle.model.specs.Calls.{unless_refused, is_commit};
ghost use Rattle.model.specs.Claims.{sound_after};
ghost use Rattle.model.specs.Device.{look, step};
ghost use Rattle.model.specs.Store.{memory_at};
ghost use Rattle.device.specs.Result.{Eight, device_with, step_result, of_step, of_call, of_outcome, StepPerforms};
ghost use Rattle.runtime.specs.RunResult.{core_run_result, of_last, CoreRuns, RunPerforms};

use device::{CallResult, Core, StepResult, core_of, look};
use model::{Answer, Device, Handler, Refusal, Totals};
use steps;

// What steps leave: the answer of the last one, refused or not, and which word it stored; how many were made and how they ended; the
// device, apart from its registers and burst, and the totals.
#[derive(Clone, Copy)]
struct CoreRunResult {
    pub last: Answer,
    pub stored: Option<u16>,
    pub steps: u32,
    pub ended: Result<(), Refusal>,
    pub handler: Handler,
    pub core: Core,
    pub totals: Totals,
}

// What a run answers, with the whole device and the totals after it.
#[derive(Clone, Copy)]
pub struct RunResult {
    pub steps: u32,
    pub ended: Result<(), Refusal>,
    pub device: Device,
    pub totals: Totals,
}

// Is an answer a refusal?
#[tactic(auto, unfolding(model::specs::Calls::unless_refused))]
pub fn refusal(answer: Answer) -> Result<(), Refusal>
    ensures { result ≡ unless_refused answer Err (Ok tt) }
{
    match answer {
        Answer::Refused(why) => Err(why),
        _ => Ok(()),
    }
}

// Was the commit store made?
#[tactic(auto, unfolding(model::specs::Calls::is_commit))]
fn is_commit(answer: Answer) -> bool
    ensures { result ≡ is_commit answer }
{
    matches!(answer, Answer::Committed(_))
}

// After a store of the phase: not after a commit store, and in phase 0 word 16 must be 0.
#[tactic(auto, using(model::proofs::TestLaws::tests), unfolding(model::specs::Claims::sound_after, model::specs::Test::both, model::specs::Test::pick))]
fn sound_after_phase(answer: Answer, store: &[u16]) -> bool
    requires { memory_at ≤ length store.now }
    ensures { result ≡ sound_after (Some 8) answer store.now }
{
    !is_commit(answer) && store[16] == 0
}

// Do the early checks of the next step pass after a step that wasn't refused: by the word stored, the answer and the words after it?
#[tactic(auto, using(model::proofs::TestLaws::tests), unfolding(model::specs::Claims::sound_after, model::specs::Test::pick))]
fn sound_after(stored: Option<u16>, answer: Answer, store: &[u16]) -> bool
    requires { memory_at ≤ length store.now }
    ensures { result ≡ sound_after stored answer store.now }
{
    match stored {
        Some(8) => sound_after_phase(answer, store),
        _ => true,
    }
}

// A refused step: the device stays as it is.
fn refused(handler: Handler, core: Core, why: Refusal) -> StepResult
    ensures { result ≡ step_result (Answer.Refused why) None handler core }
{
    StepResult {
        answer: Answer::Refused(why),
        stored: None,
        handler,
        core,
    }
}

// A step on lent registers and a lent burst. Its early checks aren't made where they are known to pass; they have copies of their own, so that a
// step without them keeps handler and core out of memory.
fn step_known(
    program: &[u16],
    store: &mut [u16],
    registers: &mut [u16; 8],
    burst: &mut [u16; 8],
    handler: Handler,
    core: Core,
    known: bool,
) -> StepResult
    requires eight { Eight burst.old }
    requires known_to_pass { known ≡ true → look program.now store.old (device_with core registers.old handler burst.old) ≡ Ok tt }
    ensures store_after { of_step result registers.new burst.new store.new
        ≡ of_outcome store.old
        (step program.now store.old (device_with core registers.old handler burst.old)) }
    ensures eight_after { Eight burst.new }
{
    if !known {
        let seen_handler = handler;
        let seen_core = core;
        if let Err(why) = look::look(program, store, registers, burst, seen_handler, seen_core) {
            return refused(handler, core, why);
        }
    }
    steps::next_step(program, store, registers, burst, handler, core)
}

// Steps on lent registers and a lent burst, up to a budget; of the first one it is told whether its early checks are known to pass. A single
// step is a budget of 1: so the code of a step stands in one place, in the loop, and what it leaves needs no copy from step to step.
fn run_in(
    program: &[u16],
    store: &mut [u16],
    registers: &mut [u16; 8],
    burst: &mut [u16; 8],
    handler: Handler,
    core: Core,
    totals: Totals,
    budget: u32,
    looked: bool,
) -> CoreRunResult
    requires eight { Eight burst.old }
    requires looked_to_pass { looked ≡ true → look program.now store.old (device_with core registers.old handler burst.old) ≡ Ok tt }
    ensures { CoreRuns program.now budget store.old
        (device_with core registers.old handler burst.old) totals
        result registers.new burst.new store.new }
{
    let mut last = Answer::Done;
    let mut stored = None;
    let mut handler = handler;
    let mut core = core;
    let mut totals = totals;
    let mut known = looked;
    for steps in 0..budget {
        let before = handler;
        let step = step_known(program, store, registers, burst, handler, core, known);
        last = step.answer;
        stored = step.stored;
        handler = step.handler;
        core = step.core;
        if let Err(why) = refusal(last) {
            return CoreRunResult {
                last,
                stored,
                steps,
                ended: Err(why),
                handler,
                core,
                totals,
            };
        }
        totals = totals::counted(totals, before, last, stored);
        known = sound_after(stored, last, store);
    }
    CoreRunResult {
        last,
        stored,
        steps: budget,
        ended: Ok(()),
        handler,
        core,
        totals,
    }
}

// A device from its core, its registers, its handler and its burst.
fn whole(core: Core, registers: [u16; 8], handler: Handler, burst: [u16; 8]) -> Device
    ensures { result ≡ device_with core registers handler burst }
{
    Device {
        on: core.on,
        registers,
        place: core.place,
        count: core.count,
        handler,
        burst,
    }
}

// The last answer and the word stored, with the whole device.
fn packed(steps: CoreRunResult, registers: [u16; 8], burst: [u16; 8]) -> CallResult
    ensures { (s : List ℕ) → of_call result s ≡ of_last steps registers burst s }
{
    CallResult {
        answer: steps.last,
        stored: steps.stored,
        device: whole(steps.core, registers, steps.handler, burst),
    }
}

// Step: at most one store, on the lent words. Which word that was is told. Its early checks come first; where they don't pass, `run_in` makes
// them again and tells why, so that nothing has to be kept of the device for a refusal.
pub fn step(program: &[u16], store: &mut [u16], device: Device) -> CallResult
    ensures { StepPerforms program.now store.old device result store.new }
{
    let mut registers = device.registers;
    let zero = Totals {
        committed: 0,
        accepted: 0,
        stores: 0,
    };
    let mut burst = device.burst;
    let core = core_of(device);
    let handler = device.handler;
    let found = look::look(program, store, &registers, &burst, handler, core);
    let steps = run_in(
        program,
        store,
        &mut registers,
        &mut burst,
        handler,
        core,
        zero,
        1,
        found.is_ok(),
    );
    packed(steps, registers, burst)
}

// Run, on the lent words.
pub fn run(
    program: &[u16],
    store: &mut [u16],
    device: Device,
    totals: Totals,
    budget: u32,
) -> RunResult
    ensures { RunPerforms program.now budget store.old device totals result store.new }
{
    let mut registers = device.registers;
    let mut burst = device.burst;
    let handler = device.handler;
    let core = core_of(device);
    let found = look::look(program, store, &registers, &burst, handler, core);
    let steps = run_in(
        program,
        store,
        &mut registers,
        &mut burst,
        handler,
        core,
        totals,
        budget,
        found.is_ok(),
    );
    RunResult {
        steps: steps.steps,
        ended: steps.ended,
        device: whole(steps.core, registers, steps.handler, burst),
        totals: steps.totals,
    }
}
