// The instructions of a program: their words, the opcode table, and refusal 5.
ghost use Rattle.std.specs.Prelude.{◌+◌, ◌≡◌};
ghost use Rattle.model.specs.Check.{fields_fit, last_one_fits, instruction_rule, body_rule};
ghost use Rattle.model.specs.Program.{bodies, opcode, field_a, field_b, code, operand, decode, bounds, may_be_last};
ghost use Rattle.model.specs.Test.{each};
ghost use Rattle.model.specs.Accepted.{Bodies, HasBody, HasInstruction, body_instruction, Legal};
ghost use Rattle.program.specs.Fields.{as_bounds};

use super::rows;
use model::{Instruction, Refusal};

// What the fields a, b and k of an instruction are below.
#[derive(Clone, Copy)]
pub struct Below(pub u16, pub u16, pub u32);

// The opcode table, its columns "opcode" and "uses".
#[tactic(auto, unfolding(model::specs::Program::decode))]
pub fn decode(opcode: u8, field_a: u16, field_b: u16, operand: u16) -> Instruction
    ensures { result ≡ decode opcode field_a field_b operand }
{
    match opcode {
        0 => Instruction::Set(field_a, operand),
        1 => Instruction::Move(field_a, field_b),
        2 => Instruction::Add(field_a, field_b),
        3 => Instruction::Sub(field_a, field_b),
        4 => Instruction::And(field_a, field_b),
        5 => Instruction::Or(field_a, field_b),
        6 => Instruction::Xor(field_a, field_b),
        7 => Instruction::Shift(field_a, operand),
        8 => Instruction::Load(field_a, operand),
        9 => Instruction::Save(field_a, operand),
        10 => Instruction::LoadX(field_a, field_b, operand),
        11 => Instruction::SaveX(field_a, field_b, operand),
        12 => Instruction::Jump(operand),
        13 => Instruction::JumpZero(field_a, operand),
        14 => Instruction::JumpLess(field_a, field_b, operand),
        15 => Instruction::Go(operand),
        16 => Instruction::Done,
        17..=255 => Instruction::Unknown,
    }
}

// The fields' bounds by opcode, for a program of so many memory words and tasks and a body of so many instructions. An unused
// field is below 1; of GO in an event and DONE in a task no k will do.
#[tactic(auto, unfolding(model::specs::Program::bounds, model::specs::Test::pick))]
pub fn bounds(memory_words: u16, tasks: u16, instructions: u16, is_task: bool, opcode: u8) -> Below
    ensures { as_bounds result ≡ bounds memory_words tasks instructions is_task opcode }
{
    match opcode {
        0 => Below(8, 1, 65536),
        1 | 2 | 3 | 4 | 5 | 6 => Below(8, 8, 1),
        7 => Below(8, 1, 16),
        8 | 9 => Below(8, 1, memory_words as u32),
        10 | 11 => Below(8, 8, memory_words as u32),
        12 => Below(1, 1, instructions as u32),
        13 => Below(8, 1, instructions as u32),
        14 => Below(8, 8, instructions as u32),
        15 => Below(1, 1, if is_task { tasks as u32 } else { 0 }),
        16 => Below(1, 1, if is_task { 0 } else { 1 }),
        17..=255 => Below(0, 0, 0),
    }
}

// "A body's last instruction is JUMP, GO or DONE."
#[tactic(auto, unfolding(model::specs::Program::may_be_last, model::specs::Test::pick))]
pub fn may_be_last(opcode: u8) -> bool
    ensures { result ≡ may_be_last opcode }
{
    match opcode {
        12 | 15 | 16 => true,
        _ => false,
    }
}

// Of an instruction's first word: opcode × 256 + a × 16 + b.
fn opcode(word: u16) -> u8
    ensures { result ≡ opcode word }
{
    (word / 256) as u8
}

fn field_a(word: u16) -> u16
    ensures { result ≡ field_a word }
{
    word / 16 % 16
}

fn field_b(word: u16) -> u16
    ensures { result ≡ field_b word }
{
    word % 16
}

// The first word of an instruction, which has its number in its body.
pub fn code(program: &[u16], body_number: u16, instruction: u16) -> u16
    requires { HasInstruction program.now body_number instruction }
    ensures { result ≡ code program.now body_number instruction }
{
    let at = rows::start(program, body_number) as usize;
    program[at + 2 * (instruction as usize)]
}

// Its second word, k.
pub fn operand(program: &[u16], body_number: u16, instruction: u16) -> u16
    requires { HasInstruction program.now body_number instruction }
    ensures { result ≡ operand program.now body_number instruction }
{
    let at = rows::start(program, body_number) as usize;
    program[at + 2 * (instruction as usize) + 1]
}

// The instruction itself.
pub fn instruction(program: &[u16], body_number: u16, instruction: u16) -> Instruction
    requires { HasInstruction program.now body_number instruction }
    ensures { result ≡ body_instruction program.now body_number instruction }
{
    let word = code(program, body_number, instruction);
    decode(
        opcode(word),
        field_a(word),
        field_b(word),
        operand(program, body_number, instruction),
    )
}

// "Unused fields are 0", and the bounds of the used ones.
#[tactic(auto, using(model::proofs::TestLaws::tests), unfolding(model::specs::Check::fields_fit, model::specs::Test::both))]
pub fn fields_fit(below: Below, word: u16, operand: u16) -> bool
    ensures { result ≡ fields_fit (as_bounds below) word operand }
{
    if field_a(word) >= below.0 {
        return false;
    }
    if field_b(word) >= below.1 {
        return false;
    }
    (operand as u32) < below.2
}

#[tactic(auto, using(model::proofs::TestLaws::tests), unfolding(model::specs::Check::last_one_fits, model::specs::Test::pick))]
pub fn last_fits(program: &[u16], body_number: u16, instruction: u16) -> bool
    requires { HasInstruction program.now body_number instruction }
    ensures { result ≡ last_one_fits program.now body_number instruction }
{
    if instruction + 1 == rows::instructions(program, body_number) {
        return may_be_last(opcode(code(program, body_number, instruction)));
    }
    true
}

// "an instruction breaks its rule"
#[tactic(auto, using(model::proofs::TestLaws::tests, model::proofs::TestLaws::in_a_row, model::proofs::Passed::gives), unfolding(model::specs::Check::instruction_rule, model::specs::Test::must, model::specs::Test::in_turn))]
pub fn rule(program: &[u16], body_number: u16, instruction: u16) -> Result<(), Refusal>
    requires { HasInstruction program.now body_number instruction }
    ensures value { result ≡ instruction_rule program.now body_number instruction }
    ensures given { result ≡ Ok tt → Legal program.now body_number instruction }
{
    let word = code(program, body_number, instruction);
    let below = bounds(
        program[3],
        program[1],
        rows::instructions(program, body_number),
        body_number < program[1],
        opcode(word),
    );
    if !fields_fit(below, word, operand(program, body_number, instruction)) {
        return Err(Refusal::Instruction(body_number, instruction));
    }
    if !last_fits(program, body_number, instruction) {
        return Err(Refusal::Instruction(body_number, instruction));
    }
    Ok(())
}

// Every instruction of a body.
#[tactic(auto, using(model::proofs::TestLaws::by_each), unfolding(model::specs::Check::body_rule))]
fn body(program: &[u16], body_number: u16) -> Result<(), Refusal>
    requires { HasBody program.now body_number }
    ensures { result ≡ body_rule program.now body_number }
{
    for instruction in 0..rows::instructions(program, body_number) {
        rule(program, body_number, instruction)?;
    }
    Ok(())
}

// Every body: one pass over the instructions.
#[tactic(auto, using(model::proofs::TestLaws::by_each))]
pub(crate) fn bodies(program: &[u16]) -> Result<(), Refusal>
    requires { Bodies program.now }
    ensures { result ≡ each (body_rule program.now) 0 (bodies program.now) }
{
    for body_number in 0..program[1] + program[2] {
        body(program, body_number)?;
    }
    Ok(())
}
