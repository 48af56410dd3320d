// The checks that are left for a running body, and what its instruction does.
ghost use Rattle.std.specs.Prelude.{ℕ, ◌≤◌, ◌<◌, ◌≡◌};
ghost use Rattle.model.specs.Device.{head_sound, named_row, open_sound, head_is};
ghost use Rattle.model.specs.Program.{word, tasks, bodies, body_number};
ghost use Rattle.model.specs.Store.{view};
ghost use Rattle.model.specs.Accepted.{Contents, RowsInside, HasBody, HasInstruction, LegalEffect, Shaped};
ghost use Rattle.body.specs.Running.{Running, Fetches, row_sound, last_sound, instruction_fetched, fetched, body_at, instruction_at};

use control::single;
use effects;
use model::{Body, Effect, Place, Refusal};
use program::{code, rows};
use store::queue;

// A body's number among all: tasks first.
#[tactic(auto, unfolding(model::specs::Program::body_number))]
pub fn body_number(program: &[u16], body: Body) -> u16
    requires contents { Contents program.now }
    requires body_bound { body_number program.now body < bodies program.now }
    ensures { result ≡ body_number program.now body }
{
    match body {
        Body::Task(task) => task,
        Body::Event(event) => program[1] + event,
    }
}

// The body of a place, and the number of its instruction; a place without one has task 0's first.
#[tactic(auto, unfolding(crate::specs::Running::body_at))]
pub fn body_at(place: Place) -> Body
    ensures { result ≡ body_at place }
{
    match place {
        Place::Free(_) => Body::Task(0),
        Place::Run(body, _, _) => body,
        Place::Half(body, _) => body,
    }
}

#[tactic(auto, unfolding(crate::specs::Running::instruction_at))]
pub fn instruction_at(place: Place) -> u16
    ensures { result ≡ instruction_at place }
{
    match place {
        Place::Free(_) => 0,
        Place::Run(_, instruction, _) => instruction,
        Place::Half(_, instruction) => instruction,
    }
}

// The record at head, for a running event.
#[tactic(auto, unfolding(model::specs::Device::head_sound))]
fn head_sound(program: &[u16], store: &[u16], body: Body) -> Result<(), Refusal>
    requires { Running program.now store.now body }
    ensures { result ≡ head_sound program.now (view store.now) body }
{
    match body {
        Body::Task(_) => Ok(()),
        Body::Event(_) => single::record_at_head(program, store),
    }
}

// Word 10, for a running task.
#[tactic(auto, unfolding(model::specs::Device::open_sound))]
fn open_sound(program: &[u16], store: &[u16], body: Body) -> Result<(), Refusal>
    requires running { Running program.now store.now body }
    requires rows_inside { RowsInside program.now }
    ensures { result ≡ open_sound program.now (view store.now) body }
{
    match body {
        Body::Task(_) => single::open_number(program, store),
        Body::Event(_) => Ok(()),
    }
}

// Is a running event that of the record at head?
#[tactic(auto, using(model::proofs::TestLaws::tests), unfolding(model::specs::Device::head_is))]
fn head_is(store: &[u16], body: Body) -> bool
    requires shaped { Shaped store.now }
    requires store_bound { word store.now 14 ≤ word store.now 3 }
    ensures { result ≡ head_is (view store.now) body }
{
    match body {
        Body::Task(_) => true,
        Body::Event(event) => queue::head_event(store) == event,
    }
}

// "at GO task k's row (4)"
#[tactic(auto, unfolding(model::specs::Device::named_row))]
fn named_row(program: &[u16], effect: Effect) -> Result<(), Refusal>
    requires rows_inside { RowsInside program.now }
    requires task_bound { (k : ℕ) → effect ≡ Effect.EndTask k → k < tasks program.now }
    ensures { result ≡ named_row program.now effect }
{
    match effect {
        Effect::EndTask(task) => rows::usable(program, task),
        _ => Ok(()),
    }
}

// The checks of a body's record and of its row.
#[tactic(auto, using(model::proofs::TestLaws::in_a_row, model::proofs::Passed::gives), unfolding(model::specs::Test::in_turn))]
fn row_sound(program: &[u16], store: &[u16], body: Body) -> Result<(), Refusal>
    requires { Running program.now store.now body }
    ensures value { result ≡ row_sound program.now (view store.now) body }
    ensures given { result ≡ Ok tt → HasBody program.now (body_number program.now body) }
{
    head_sound(program, store, body)?;
    rows::inside(program)?;
    rows::usable(program, body_number(program, body))
}

// An instruction of a body: its rule, the row that it names, and what it does.
#[tactic(auto, using(model::proofs::TestLaws::in_a_row), unfolding(crate::specs::Running::does, model::specs::Test::in_turn))]
fn instruction_effect(
    program: &[u16],
    registers: &[u16; 8],
    body_number: u16,
    instruction: u16,
) -> Result<Effect, Refusal>
    requires { HasInstruction program.now body_number instruction }
    ensures value { result ≡ instruction_fetched program.now registers.now body_number instruction }
    ensures given { (f : Effect) → result ≡ Ok f → LegalEffect program.now body_number instruction f }
{
    code::rule(program, body_number, instruction)?;
    let effect = effects::effect_at(program, body_number, instruction, registers);
    named_row(program, effect)?;
    Ok(effect)
}

// Word 10's rule, and that a running event is that of the record at head.
#[tactic(auto, using(model::proofs::TestLaws::in_a_row, model::proofs::TestLaws::tests), unfolding(model::specs::Test::must))]
fn last_sound(program: &[u16], store: &[u16], body: Body) -> Result<(), Refusal>
    requires running { Running program.now store.now body }
    requires rows_inside { RowsInside program.now }
    ensures { result ≡ last_sound program.now (view store.now) body }
{
    open_sound(program, store, body)?;
    if !head_is(store, body) {
        return Err(Refusal::State);
    }
    Ok(())
}

// The checks of a body at an instruction that hold for every place, and what the instruction does.
pub fn fetch(
    program: &[u16],
    store: &[u16],
    registers: &[u16; 8],
    body: Body,
    instruction: u16,
) -> Result<Effect, Refusal>
    requires { Running program.now store.now body }
    ensures value { result ≡ fetched program.now (view store.now) registers.now body instruction }
    ensures given { (f : Effect) → result ≡ Ok f → Fetches program.now body instruction f }
{
    row_sound(program, store, body)?;
    let number = body_number(program, body);
    if instruction >= rows::instructions(program, number) {
        open_sound(program, store, body)?;
        return Err(Refusal::State);
    }
    let effect = instruction_effect(program, registers, number, instruction)?;
    last_sound(program, store, body)?;
    Ok(effect)
}
