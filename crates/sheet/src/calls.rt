// A line of the schedule at its end: the call that it is, made on the sheet's store and device, and its line of the sheet.
ghost use Rattle.std.specs.Prelude.{◌+◌, ◌≤◌, length, true, false, [], ◌∷◌, ◌≡◌};
ghost use Rattle.model.specs.Calls.{Boot, after_calls};
ghost use Rattle.model.specs.Calls.{steps as steps_of};
ghost use Rattle.model.specs.Demand3.{recovery_steps};
ghost use Rattle.model.specs.Device.{off};
ghost use Rattle.model.specs.Program.{word as word_of};
ghost use Rattle.model.specs.Store.{view};
ghost use Rattle.sheet.specs.Sheet.{answer_line, unread_line};
ghost use Rattle.sheet.specs.Inside.{Prints, Shows, PrintsCut, TakesLine, state_at, after_call};
ghost use Rattle.sheet.specs.Printed.{holding};

use crate::{Printed, Scheduled, State, printing, schedule};
use device::{CallResult, calls};
use model::Device;
use runtime;

// The state before the first call.
pub fn start(ended: bool) -> State
    ensures { result ≡ state_at off 1 ended }
{
    State {
        device: Device::OFF,
        number: 1,
        line: [0; 7],
        held: 0,
        ended,
    }
}

// The state after call `number`. No schedule is so long that a number stays.
#[tactic(auto, using(model::proofs::TestLaws::tests), unfolding(crate::specs::Inside::next_number, model::specs::Test::pick))]
fn next(device: Device, number: u64, ended: bool) -> State
    ensures { result ≡ after_call device number ended }
{
    State {
        device,
        number: number.saturating_add(1),
        ..start(ended)
    }
}

// A word of the store; 0 where there is none.
fn word(store: &[u16], i: usize) -> u16
    ensures { result ≡ word_of store.now i }
{
    store.get(i).copied().unwrap_or(0)
}

// As many words as both have.
fn copy_words(store: &[u16], copy: &mut [u16])
    ensures { length copy.old ≡ length store.now → copy.new ≡ store.now }
{
    let count = store.len().min(copy.len());
    copy[..count].copy_from_slice(&store[..count]);
}

// "Uncut recovery takes n + 3 steps from phase 1 and n + 2 from phase 2", and "one step more"
#[tactic(auto, using(model::proofs::TestLaws::tests), unfolding(model::specs::Demand3::recovery_steps, model::specs::Test::pick))]
fn recovery_steps(store: &[u16]) -> u32
    ensures { result ≡ recovery_steps (view store.now) }
{
    let count = word(store, 11) as u32;
    match word(store, 8) {
        1 => count + 4,
        2 => count + 3,
        _ => 0,
    }
}

// Uncut recovery of a store whose device is off.
fn recover(program: &[u16], store: &mut [u16])
    ensures { store.new
        ≡ (after_calls program.now store.old off (Boot ∷ steps_of (recovery_steps (view store.old)))).store }
{
    let steps = recovery_steps(store);
    let mut device = calls::boot(program, store, Device::OFF).device;
    for made in 0..steps {
        device = runtime::step(program, store, device).device;
    }
}

// The memory lies where the contents say. On a sheet there is always room for it.
fn store_line(text: &mut [u8], at: usize, number: u64, store: &[u16]) -> usize
    requires { at + 5141 ≤ length text.old }
    ensures { Shows text.old at text.new result number store.now }
{
    let words = word(store, 1) as usize;
    let start = word(store, 5) as usize;
    let end = start + words;
    if words > 1024 || end > store.len() {
        return at;
    }
    printing::memory_line(text, at, number, &store[start..end])
}

// A cut: what uncut recovery of a copy leaves. The sheet's own device goes on from the cut.
fn cut(
    program: &[u16],
    store: &[u16],
    copy: &mut [u16],
    text: &mut [u8],
    at: usize,
    state: State,
) -> Printed
    requires { at + 5141 ≤ length text.old }
    ensures { PrintsCut program.now store.now (length copy.old)
        text.old at text.new result state.number }
{
    copy_words(store, copy);
    recover(program, copy);
    let end = store_line(text, at, state.number, copy);
    let state = next(calls::cut().device, state.number, false);
    Printed { state, end }
}

// A call that is no cut.
fn answered(text: &mut [u8], at: usize, number: u64, made: CallResult) -> Printed
    requires { at + 5141 ≤ length text.old }
    ensures { Prints text.old at text.new result
        (answer_line number made.answer) (after_call made.device number false) }
{
    let end = printing::answer_line(text, at, number, made.answer);
    let state = next(made.device, number, false);
    Printed { state, end }
}

fn unread(text: &mut [u8], at: usize, state: State) -> Printed
    requires { at + 5141 ≤ length text.old }
    ensures { Prints text.old at text.new result (unread_line state.number) (after_call state.device state.number true) }
{
    let end = printing::unread_line(text, at, state.number);
    let state = next(state.device, state.number, true);
    Printed { state, end }
}

// The line that is held.
pub fn line(
    program: &[u16],
    store: &mut [u16],
    copy: &mut [u16],
    text: &mut [u8],
    at: usize,
    state: State,
) -> Printed
    requires { at + 5141 ≤ length text.old }
    ensures { TakesLine program.now (length copy.old)
        (holding state store.old) text.old at
        (holding result.state store.new) text.new result.end }
{
    let number = state.number;
    let device = state.device;
    let bytes = state.line;
    match schedule::held(&bytes, state.held) {
        Some(Scheduled::Boot) => answered(text, at, number, calls::boot(program, store, device)),
        Some(Scheduled::Step) => answered(text, at, number, runtime::step(program, store, device)),
        Some(Scheduled::Cut) => cut(program, store, copy, text, at, state),
        Some(Scheduled::Post(event, datum)) => answered(
            text,
            at,
            number,
            calls::post(program, store, device, event, datum),
        ),
        None => unread(text, at, state),
    }
}
