// The program check of document 01, and its parts one by one, as a step uses them: the contents here, the rows in
// rows.rt, the instructions in code.rt.
// Each contract cites the definition of crates/model that it equals.

#![tactic(auto)]

ghost use Rattle.std.specs.Prelude.{◌≡◌};
ghost use Rattle.model.specs.Check.{contents_rule, check};
ghost use Rattle.model.specs.Accepted.{Contents, Sound};

use model::Refusal;

pub mod code;
pub mod rows;

// "mark (hex C0B1)"
const MARK: u16 = 0xC0B1;

// Words 0 to 5: refusals 1, 2 and 3.
#[tactic(auto, using(model::proofs::TestLaws::tests), unfolding(model::specs::Check::contents_rule, model::specs::Test::must, model::specs::Test::in_turn, model::specs::Program::program_mark))]
pub fn contents(program: &[u16]) -> Result<(), Refusal>
    ensures value { result ≡ contents_rule program.now }
    ensures given { result ≡ Ok tt → Contents program.now }
{
    if program.len() < 6 {
        return Err(Refusal::ProgramLength);
    }
    if program.len() != program[5] as usize {
        return Err(Refusal::ProgramLength);
    }
    if program[0] != MARK {
        return Err(Refusal::ProgramMark);
    }
    if program[1] < 1 {
        return Err(Refusal::ProgramSize(1));
    }
    if program[1] > 32 {
        return Err(Refusal::ProgramSize(1));
    }
    if program[2] > 16 {
        return Err(Refusal::ProgramSize(2));
    }
    if program[3] < 1 {
        return Err(Refusal::ProgramSize(3));
    }
    if program[3] > 1024 {
        return Err(Refusal::ProgramSize(3));
    }
    if program[4] >= program[1] {
        return Err(Refusal::ProgramSize(4));
    }
    Ok(())
}

// The program check: refusals 1 to 5, in this order.
#[tactic(auto, using(model::proofs::TestLaws::in_a_row, model::proofs::Passed::gives), unfolding(model::specs::Check::check))]
pub fn check(program: &[u16]) -> Result<(), Refusal>
    ensures value { result ≡ check program.now }
    ensures given { result ≡ Ok tt → Sound program.now }
{
    contents(program)?;
    rows::rows(program)?;
    code::bodies(program)
}
