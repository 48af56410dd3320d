// The rules that the check finds broken, as mistakes of a text.
ghost use Rattle.std.specs.Prelude.{◌+◌, ◌*◌, ◌-◌, ◌≤◌, ◌<◌, min, ◌≡◌, true, length};
ghost use Rattle.model.specs.Program.{word as word_of, tasks};
ghost use Rattle.model.specs.Test.{◌and◌, ◌or◌};
ghost use Rattle.assembly.specs.Rules.{size_mistake, row_mistake, operand_mistake, instruction_mistake, instruction_rule, size_place, body_place, instruction_place, explained_by, rule_mistake};
ghost use Rattle.assembly.specs.Mistakes.{kind_number, is_known, mistake_at, mistake_numbers, answers_known};
ghost use Rattle.tokens.specs.Tokens.{all_numbers};
ghost use Rattle.model.specs.Answer.{refusal as refusal_of};

use crate::{Mistake, MistakeKind, lines};
use model::Refusal;
use tokens::{SourceLine, uses};

const SHR: u16 = 7;

const GO: u16 = 15;

const DONE: u16 = 16;

// A word of the program; 0 where there is none.
#[tactic(auto, using(model::proofs::TestLaws::tests), unfolding(model::specs::Program::word, model::specs::Test::pick))]
fn word(words: &[u16], i: usize) -> u16
    ensures { result ≡ word_of words.now i }
{
    if i < words.len() { words[i] } else { 0 }
}

// 3, by the word.
#[tactic(auto, using(model::proofs::TestLaws::tests), unfolding(crate::specs::Rules::size_mistake, model::specs::Test::pick))]
fn size_mistake(i: u16) -> MistakeKind
    ensures number { kind_number result ≡ size_mistake i }
    ensures known { is_known result ≡ true }
{
    match i {
        1 => MistakeKind::TaskCount,
        2 => MistakeKind::EventCount,
        3 => MistakeKind::MemorySize,
        _ => MistakeKind::NoTaskNumber,
    }
}

// 4, by the body.
#[tactic(auto, using(model::proofs::TestLaws::tests), unfolding(crate::specs::Rules::row_mistake, model::specs::Test::pick, model::specs::Test::both))]
fn row_mistake(words: &[u16], i: u16) -> MistakeKind
    ensures number { kind_number result ≡ row_mistake words.now i }
    ensures known { is_known result ≡ true }
{
    let count = word(words, 6 + 3 * (i as usize) + 1);
    if count >= 1 && count <= 256 {
        return MistakeKind::TransactionLarge;
    }
    MistakeKind::BodySize
}

// The rules of k by the opcode, where the registers are right.
#[tactic(auto, using(model::proofs::TestLaws::tests), unfolding(crate::specs::Rules::operand_mistake, crate::specs::Mistakes::or_else, crate::specs::Mistakes::mistake_if, model::specs::Test::pick, model::specs::Test::both))]
fn operand_mistake(
    memory: u16,
    tasks: u16,
    count: u16,
    is_task: bool,
    opcode: u16,
    k: u16,
) -> MistakeKind
    ensures number { kind_number result ≡ operand_mistake memory tasks count is_task opcode k }
    ensures known { is_known result ≡ true }
{
    if opcode == SHR && k >= 16 {
        return MistakeKind::ShiftLarge;
    }
    if opcode >= 8 && opcode <= 11 && k >= memory {
        return MistakeKind::AddressLarge;
    }
    if uses::is_jump(opcode as u64) && k >= count {
        return MistakeKind::TargetLarge;
    }
    if opcode == GO && !is_task {
        return MistakeKind::GoPlace;
    }
    if opcode == GO && k >= tasks {
        return MistakeKind::NoTaskNumber;
    }
    if opcode == DONE && is_task {
        return MistakeKind::DonePlace;
    }
    MistakeKind::BodyEnd
}

// 5, by the instruction's words.
#[tactic(auto, using(model::proofs::TestLaws::tests), unfolding(crate::specs::Rules::instruction_mistake, crate::specs::Mistakes::or_else, crate::specs::Mistakes::mistake_if, model::specs::Test::pick, model::specs::Test::either))]
fn instruction_mistake(
    memory: u16,
    tasks: u16,
    count: u16,
    is_task: bool,
    first: u16,
    k: u16,
) -> MistakeKind
    ensures number { kind_number result ≡ instruction_mistake memory tasks count is_task first k }
    ensures known { is_known result ≡ true }
{
    if first / 16 % 16 >= 8 || first % 16 >= 8 {
        return MistakeKind::RegisterLarge;
    }
    operand_mistake(memory, tasks, count, is_task, first / 256, k)
}

#[tactic(auto, using(model::proofs::TestLaws::tests), unfolding(crate::specs::Rules::instruction_rule))]
fn instruction_rule(words: &[u16], i: u16, j: u16) -> MistakeKind
    ensures number { kind_number result ≡ instruction_rule words.now i j }
    ensures known { is_known result ≡ true }
{
    let row = 6 + 3 * (i as usize);
    let at = word(words, row) as usize + 2 * (j as usize);
    let tasks = word(words, 1);
    instruction_mistake(
        word(words, 3),
        tasks,
        word(words, row + 1),
        i < tasks,
        word(words, at),
        word(words, at + 1),
    )
}

// Its line, as a place among the lines; the last where there is none such.
#[tactic(auto, using(model::proofs::TestLaws::tests, crate::proofs::LineLaws::room), unfolding(crate::specs::Rules::size_place, model::specs::Test::pick))]
fn size_place(lines: &[SourceLine], i: u16) -> usize
    requires { 1 ≤ length lines.now }
    ensures value { result ≡ size_place (all_numbers lines.now) (length lines.now) i }
    ensures upper_bound { result < length lines.now }
{
    match i {
        1 => lines::place_of(lines, 0, lines::TASK, 32, lines.len() - 1),
        2 => lines::place_of(lines, 0, lines::EVENT, 16, lines.len() - 1),
        3 => lines::place_of(lines, 0, lines::MEMORY, 0, lines.len() - 1),
        _ => lines::place_of(lines, 0, lines::ENTRY, 0, lines.len() - 1),
    }
}

#[tactic(auto, using(crate::proofs::LineLaws::room), unfolding(crate::specs::Rules::body_place))]
fn body_place(lines: &[SourceLine], i: u16) -> usize
    requires { 1 ≤ length lines.now }
    ensures value { result ≡ body_place (all_numbers lines.now) (length lines.now) i }
    ensures upper_bound { result < length lines.now }
{
    lines::place_of(lines, 0, lines::BODY, i as u64, lines.len() - 1)
}

#[tactic(auto, using(crate::proofs::LineLaws::room, model::proofs::TestLaws::tests), unfolding(crate::specs::Rules::instruction_place))]
fn instruction_place(lines: &[SourceLine], i: u16, j: u16) -> usize
    requires { 1 ≤ length lines.now }
    ensures value { result ≡ instruction_place (all_numbers lines.now) (length lines.now) i j }
    ensures upper_bound { result < length lines.now }
{
    let from = body_place(lines, i);
    lines::place_of(lines, from, lines::INSTRUCTION, j as u64, lines.len() - 1)
}

// The mistake of a refusal by the check, and its line.
#[tactic(auto, using(model::proofs::TestLaws::tests), unfolding(crate::specs::Rules::explained_by, crate::specs::Rules::rule_place, crate::specs::Rules::rule_number, model::specs::Answer::refusal, model::specs::Test::pick))]
fn explained(lines: &[SourceLine], words: &[u16], refusal: Refusal) -> Mistake
    requires { 1 ≤ length lines.now }
    ensures numbers { mistake_at result.line (kind_number result.kind) ≡ explained_by (all_numbers lines.now) (length lines.now) words.now (refusal_of refusal).number (refusal_of refusal).first (refusal_of refusal).second }
    ensures known { is_known result.kind ≡ true }
{
    let (place, kind) = match refusal {
        Refusal::ProgramSize(word) => (size_place(lines, word), size_mistake(word)),
        Refusal::Row(body) => (body_place(lines, body), row_mistake(words, body)),
        Refusal::Instruction(body, instruction) => (
            instruction_place(lines, body, instruction),
            instruction_rule(words, body, instruction),
        ),
        _ => (lines.len() - 1, MistakeKind::ProgramLong),
    };
    Mistake {
        line: place + 1,
        kind,
    }
}

// The mistake of lines whose words the check refuses; none where it accepts them.
#[tactic(auto, unfolding(crate::specs::Rules::rule_mistake))]
pub fn rule_mistake(
    lines: &[SourceLine],
    words: &[u16],
    checked: Result<(), Refusal>,
) -> Result<(), Mistake>
    requires { 1 ≤ length lines.now }
    ensures numbers { mistake_numbers result ≡ rule_mistake (all_numbers lines.now) (length lines.now) words.now checked }
    ensures known { answers_known result ≡ true }
{
    match checked {
        Ok(()) => Ok(()),
        Err(refusal) => Err(explained(lines, words, refusal)),
    }
}
