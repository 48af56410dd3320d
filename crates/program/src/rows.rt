// The rows of a program: their words, and refusal 4. A body's number is that of its row, tasks first.
ghost use Rattle.std.specs.Prelude.{◌≤◌, ◌≡◌, ltb};
ghost use Rattle.model.specs.Check.{rows_inside_rule, limits, due, row_rule, rows, row_usable};
ghost use Rattle.model.specs.Program.{bodies, bodies_start, start, instructions, transaction};
ghost use Rattle.model.specs.Test.{pick, each};
ghost use Rattle.model.specs.Accepted.{Contents, RowsInside, HasRow, HasBody, Bodies};

use model::Refusal;

// Where the first body starts: "6 + 3 × (T + E)".
pub fn first_body(program: &[u16]) -> u16
    requires { Contents program.now }
    ensures { result ≡ bodies_start program.now }
{
    6 + 3 * (program[1] + program[2])
}

// A body's start.
pub fn start(program: &[u16], body_number: u16) -> u16
    requires { HasRow program.now body_number }
    ensures { result ≡ start program.now body_number }
{
    program[6 + 3 * (body_number as usize)]
}

// Its instruction count.
pub fn instructions(program: &[u16], body_number: u16) -> u16
    requires { HasRow program.now body_number }
    ensures { result ≡ instructions program.now body_number }
{
    program[6 + 3 * (body_number as usize) + 1]
}

// Its transaction number.
pub fn transaction(program: &[u16], body_number: u16) -> u16
    requires { HasRow program.now body_number }
    ensures { result ≡ transaction program.now body_number }
{
    program[6 + 3 * (body_number as usize) + 2]
}

// "rows run past the program"
#[tactic(auto, using(model::proofs::TestLaws::tests, model::proofs::Passed::gives), unfolding(model::specs::Check::rows_inside_rule, model::specs::Test::must))]
pub fn inside(program: &[u16]) -> Result<(), Refusal>
    requires { Contents program.now }
    ensures value { result ≡ rows_inside_rule program.now }
    ensures given { result ≡ Ok tt → RowsInside program.now }
{
    if first_body(program) > program[5] {
        return Err(Refusal::Row(0));
    }
    Ok(())
}

// The largest transaction number that a body may have: a task 255, an event 0.
#[tactic(auto, using(model::proofs::TestLaws::tests), unfolding(model::specs::Test::pick))]
fn largest_number(tasks: u16, body_number: u16) -> u16
    ensures { result ≡ pick (ltb body_number tasks) 255 0 }
{
    if body_number < tasks { 255 } else { 0 }
}

// A row's limits.
#[tactic(auto, using(model::proofs::TestLaws::tests), unfolding(model::specs::Check::limits, model::specs::Test::must, model::specs::Test::in_turn))]
pub fn limits(program: &[u16], body_number: u16) -> Result<(), Refusal>
    requires { HasRow program.now body_number }
    ensures { result ≡ limits program.now body_number }
{
    let count = instructions(program, body_number);
    if count < 1 {
        return Err(Refusal::Row(body_number));
    }
    if count > 256 {
        return Err(Refusal::Row(body_number));
    }
    if transaction(program, body_number) > largest_number(program[1], body_number) {
        return Err(Refusal::Row(body_number));
    }
    Ok(())
}

// Where a body is due: the first behind the rows, each other where the one before it ends.
#[tactic(auto, unfolding(model::specs::Check::due))]
fn due(program: &[u16], body_number: u16) -> u32
    requires rows_inside { RowsInside program.now }
    requires body_number_bound { body_number ≤ bodies program.now }
    ensures { result ≡ due program.now body_number }
{
    if body_number == 0 {
        return first_body(program) as u32;
    }
    let before = body_number - 1;
    start(program, before) as u32 + 2 * (instructions(program, before) as u32)
}

// "a row breaks its rule"
#[tactic(auto, using(model::proofs::TestLaws::tests, model::proofs::TestLaws::in_a_row), unfolding(model::specs::Check::row_rule, model::specs::Test::must, model::specs::Test::in_turn))]
fn rule(program: &[u16], body_number: u16) -> Result<(), Refusal>
    requires { HasRow program.now body_number }
    ensures { result ≡ row_rule program.now body_number }
{
    if start(program, body_number) as u32 != due(program, body_number) {
        return Err(Refusal::Row(body_number));
    }
    limits(program, body_number)
}

// Every row, in one pass.
#[tactic(auto, using(model::proofs::TestLaws::by_each))]
fn rules(program: &[u16]) -> Result<(), Refusal>
    requires { RowsInside program.now }
    ensures { result ≡ each (row_rule program.now) 0 (bodies program.now) }
{
    for body_number in 0..program[1] + program[2] {
        rule(program, body_number)?;
    }
    Ok(())
}

// The rows, and where the bodies end.
#[tactic(auto, using(model::proofs::TestLaws::tests, model::proofs::TestLaws::in_a_row, model::proofs::Passed::gives), unfolding(model::specs::Check::rows, model::specs::Test::must))]
pub(crate) fn rows(program: &[u16]) -> Result<(), Refusal>
    requires { Contents program.now }
    ensures value { result ≡ rows program.now }
    ensures given { result ≡ Ok tt → Bodies program.now }
{
    inside(program)?;
    rules(program)?;
    let bodies = program[1] + program[2];
    if due(program, bodies) != program[5] as u32 {
        return Err(Refusal::Row(bodies));
    }
    Ok(())
}

// What a step asks of a row: its limits, and its body behind the rows and inside the total.
#[tactic(auto, using(model::proofs::TestLaws::tests, model::proofs::TestLaws::in_a_row, model::proofs::Passed::gives), unfolding(model::specs::Check::row_usable, model::specs::Test::must, model::specs::Test::in_turn))]
pub fn usable(program: &[u16], body_number: u16) -> Result<(), Refusal>
    requires { HasRow program.now body_number }
    ensures value { result ≡ row_usable program.now body_number }
    ensures given { result ≡ Ok tt → HasBody program.now body_number }
{
    limits(program, body_number)?;
    let at = start(program, body_number);
    if at < first_body(program) {
        return Err(Refusal::Row(body_number));
    }
    if at as u32 + 2 * (instructions(program, body_number) as u32) > program[5] as u32 {
        return Err(Refusal::Row(body_number));
    }
    Ok(())
}
