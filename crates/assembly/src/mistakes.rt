// The first mistake of a text's lines.
ghost use Rattle.std.specs.Prelude.{◌+◌, ◌^◌, ◌≤◌, ◌<◌, ◌≡◌, true, length};
ghost use Rattle.model.specs.Test.{pick, ◌and◌};
ghost use Rattle.assembly.specs.Lines.{as_line, line_at, is_body, is_instruction};
ghost use Rattle.assembly.specs.Mistakes.{opcode_of, operand_of, task_word, label_word, transaction_word, missing_task, missing_label, missing_transaction, name_mistake_of, among_mistake, own_mistake, found_number, finds_known, mistake_numbers, answers_known, first_own, first_among, program_length, text_mistake, of_text, mistake_of};
ghost use Rattle.tokens.specs.Reads.{Known, AllKnown};
ghost use Rattle.tokens.specs.Tokens.{all_numbers};
ghost use Rattle.tokens.specs.Uses.{is_jump};

use crate::{Mistake, MistakeKind, lines, place, statement};
use tokens::{SourceLine, Wrong, uses};

const GO_LINE: u64 = 16;

// The word that is k.
#[tactic(auto, using(model::proofs::TestLaws::tests), unfolding(crate::specs::Mistakes::operand_of, model::specs::Test::pick))]
pub fn operand_of(line: SourceLine) -> u64
    requires { (1 ≤ line.statement) × (line.statement ≤ 17) }
    ensures { result ≡ operand_of (as_line line) }
{
    let used = uses::used(line.statement - 1);
    if used.b {
        return line.third;
    }
    if used.a {
        return line.second;
    }
    line.first
}

// The word that names a task; 0 where there is none.
#[tactic(auto, using(model::proofs::TestLaws::tests), unfolding(crate::specs::Mistakes::task_word, model::specs::Test::pick, model::specs::Test::either))]
fn task_word(line: SourceLine) -> u64
    ensures { result ≡ task_word (as_line line) }
{
    match line.statement {
        lines::ENTRY | GO_LINE => line.first,
        _ => 0,
    }
}

#[tactic(auto, using(model::proofs::TestLaws::tests, crate::proofs::LineLaws::instruction_in), unfolding(model::specs::Test::both))]
fn is_jump(line: SourceLine) -> bool
    ensures { result ≡ (is_instruction (as_line line) and is_jump (opcode_of (as_line line))) }
{
    lines::is_instruction(line) && uses::is_jump(line.statement - 1)
}

// The word that names a label.
#[tactic(auto, using(model::proofs::TestLaws::tests, crate::proofs::LineLaws::jump_in), unfolding(crate::specs::Mistakes::label_word, model::specs::Test::pick))]
fn label_word(line: SourceLine) -> u64
    ensures { result ≡ label_word (as_line line) }
{
    if is_jump(line) { operand_of(line) } else { 0 }
}

// The word that names a transaction.
#[tactic(auto, using(model::proofs::TestLaws::tests), unfolding(crate::specs::Mistakes::transaction_word, model::specs::Test::pick))]
pub fn transaction_word(line: SourceLine) -> u64
    ensures { result ≡ transaction_word (as_line line) }
{
    if line.statement == lines::TASK {
        line.second
    } else {
        0
    }
}

#[tactic(auto, using(model::proofs::TestLaws::tests, crate::proofs::LineLaws::room), unfolding(crate::specs::Mistakes::missing_task, model::specs::Test::both))]
fn missing_task(lines: &[SourceLine], name: u64) -> bool
    ensures { result ≡ missing_task (all_numbers lines.now) (length lines.now) name }
{
    statement::is_name(name) && lines::numbered(lines, lines::TASK, name) == lines::NONE
}

#[tactic(auto, using(model::proofs::TestLaws::tests, crate::proofs::LineLaws::room), unfolding(crate::specs::Mistakes::missing_label, model::specs::Test::both))]
fn missing_label(lines: &[SourceLine], start: usize, name: u64) -> bool
    requires { start ≤ length lines.now }
    ensures { result ≡ missing_label (all_numbers lines.now) (length lines.now) start name }
{
    statement::is_name(name) && lines::label_number(&lines[start..], name) == lines::NONE
}

#[tactic(auto, using(model::proofs::TestLaws::tests, crate::proofs::LineLaws::room), unfolding(crate::specs::Mistakes::missing_transaction, model::specs::Test::both))]
fn missing_transaction(lines: &[SourceLine], name: u64) -> bool
    ensures { result ≡ missing_transaction (all_numbers lines.now) (length lines.now) name }
{
    statement::is_name(name) && lines::transaction_value(lines, name) == lines::NONE
}

#[tactic(auto, using(model::proofs::TestLaws::tests, crate::proofs::MistakeLaws::in_turn))]
fn name_mistake(lines: &[SourceLine], start: usize, line: SourceLine) -> Result<(), MistakeKind>
    requires { start ≤ length lines.now }
    ensures number { found_number result ≡ name_mistake_of (all_numbers lines.now) (length lines.now) start (as_line line) }
    ensures known { finds_known result ≡ true }
{
    if missing_task(lines, task_word(line)) {
        return Err(MistakeKind::NoTask);
    }
    if missing_label(lines, start, label_word(line)) {
        return Err(MistakeKind::NoLabel);
    }
    if missing_transaction(lines, transaction_word(line)) {
        return Err(MistakeKind::NoTransaction);
    }
    Ok(())
}

// What is wrong in a line as it was read, by its number.
fn reading_mistake(wrong: u64) -> Result<(), MistakeKind>
    ensures number { found_number result ≡ wrong }
    ensures known { Known wrong → finds_known result ≡ true }
{
    match wrong {
        0 => Ok(()),
        1 => Err(MistakeKind::Reading(Wrong::Character)),
        2 => Err(MistakeKind::Reading(Wrong::NumberLarge)),
        3 => Err(MistakeKind::Reading(Wrong::NumberForm)),
        4 => Err(MistakeKind::Reading(Wrong::NameLong)),
        5 => Err(MistakeKind::Reading(Wrong::WordsMany)),
        6 => Err(MistakeKind::Reading(Wrong::Colon)),
        7.. => Err(MistakeKind::Unknown(wrong - 7)),
    }
}

// A line by itself.
#[tactic(auto, using(crate::proofs::MistakeLaws::in_turn), unfolding(crate::specs::Mistakes::own_mistake))]
fn own_mistake(line: SourceLine) -> Result<(), MistakeKind>
    ensures number { found_number result ≡ own_mistake (as_line line) }
    ensures known { Known line.wrong → finds_known result ≡ true }
{
    reading_mistake(line.wrong)?;
    statement::statement_mistake(line)
}

#[tactic(auto, using(crate::proofs::MistakeLaws::own_in_turn))]
fn first_own(lines: &[SourceLine]) -> Result<(), Mistake>
    ensures numbers { mistake_numbers result ≡ first_own (all_numbers lines.now) 0 (length lines.now) }
    ensures known { AllKnown lines.now → answers_known result ≡ true }
{
    for i in 0..lines.len() {
        if let Err(kind) = own_mistake(lines[i]) {
            return Err(Mistake { line: i + 1, kind });
        }
    }
    Ok(())
}

// Line i among the others, in the body that begins at `start`.
#[tactic(auto, using(crate::proofs::MistakeLaws::in_turn, crate::proofs::MistakeLaws::placed), unfolding(crate::specs::Mistakes::among_mistake))]
fn among_mistake(lines: &[SourceLine], start: usize, i: usize) -> Result<(), MistakeKind>
    requires { (start ≤ i) × (i < length lines.now) }
    ensures number { found_number result ≡ among_mistake (all_numbers lines.now) (length lines.now) start i }
    ensures known { finds_known result ≡ true }
{
    let line = lines[i];
    place::label_mistake(start, line, &lines[start..i])?;
    place::place_mistake(start, line, &lines[..i])?;
    name_mistake(lines, start, line)
}

// Where the body of the next line begins.
#[tactic(auto, using(crate::proofs::LineLaws::room), unfolding(model::specs::Test::pick))]
pub fn next_start(lines: &[SourceLine], start: usize, i: usize) -> usize
    requires { (start ≤ i) × (i < length lines.now) }
    ensures value { result ≡ pick (is_body (line_at (all_numbers lines.now) i)) (i + 1) start }
    ensures upper_bound { result ≤ i + 1 }
{
    if lines::is_body(lines[i]) {
        i + 1
    } else {
        start
    }
}

#[tactic(auto, using(crate::proofs::MistakeLaws::among_in_turn))]
fn first_among(lines: &[SourceLine]) -> Result<(), Mistake>
    ensures numbers { mistake_numbers result ≡ first_among (all_numbers lines.now) (length lines.now) 0 (length lines.now) }
    ensures known { answers_known result ≡ true }
{
    let mut start = 0;
    for i in 0..lines.len() {
        if let Err(kind) = among_mistake(lines, start, i) {
            return Err(Mistake { line: i + 1, kind });
        }
        start = next_start(lines, start, i);
    }
    Ok(())
}

// The words of the whole program.
#[tactic(auto, using(crate::proofs::LineLaws::room), unfolding(crate::specs::Mistakes::program_length))]
pub fn program_length(lines: &[SourceLine]) -> u64
    ensures { result ≡ program_length (all_numbers lines.now) (length lines.now) }
{
    6 + 3 * lines::count(lines, lines::BODY) + 2 * lines::count(lines, lines::INSTRUCTION)
}

#[tactic(auto, using(model::proofs::TestLaws::tests, crate::proofs::MistakeLaws::in_turn, crate::proofs::LineLaws::room), unfolding(crate::specs::Mistakes::text_mistake))]
fn text_mistake(lines: &[SourceLine]) -> Result<(), MistakeKind>
    ensures number { found_number result ≡ text_mistake (all_numbers lines.now) (length lines.now) }
    ensures known { finds_known result ≡ true }
{
    if lines::count(lines, lines::MEMORY) == 0 {
        return Err(MistakeKind::NoMemory);
    }
    if lines::count(lines, lines::ENTRY) == 0 {
        return Err(MistakeKind::NoEntry);
    }
    if program_length(lines) > 65535 {
        return Err(MistakeKind::ProgramLong);
    }
    Ok(())
}

// The text's, in its last line.
#[tactic(auto, using(crate::proofs::MistakeLaws::at_line), unfolding(crate::specs::Mistakes::of_text))]
fn of_text(lines: &[SourceLine]) -> Result<(), Mistake>
    ensures numbers { mistake_numbers result ≡ of_text (all_numbers lines.now) (length lines.now) }
    ensures known { answers_known result ≡ true }
{
    match text_mistake(lines) {
        Ok(()) => Ok(()),
        Err(kind) => Err(Mistake {
            line: lines.len(),
            kind,
        }),
    }
}

// The first of lines by themselves, then of lines among the others, then of the text.
#[tactic(auto, using(crate::proofs::MistakeLaws::first_of_all), unfolding(crate::specs::Mistakes::mistake_of))]
pub fn mistake_of(lines: &[SourceLine]) -> Result<(), Mistake>
    ensures numbers { mistake_numbers result ≡ mistake_of (all_numbers lines.now) (length lines.now) }
    ensures known { AllKnown lines.now → answers_known result ≡ true }
{
    first_own(lines)?;
    first_among(lines)?;
    of_text(lines)
}
