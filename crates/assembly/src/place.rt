// A line among the others, in the body that begins at `start`.
ghost use Rattle.std.specs.Prelude.{true, not, ◌≡◌, eqb, ltb};
ghost use Rattle.model.specs.Test.{◌and◌, ◌or◌};
ghost use Rattle.assembly.specs.Lines.{as_line, as_lines, is_instruction, memory_line, entry_line, task_line, event_line, none, count, numbered};
ghost use Rattle.assembly.specs.Mistakes.{found_number, finds_known, name_first, label_mistake_of, place_mistake_of};

use crate::{MistakeKind, lines};
use tokens::SourceLine;

// A label stands in a body, alone or before an instruction.
#[tactic(auto, using(model::proofs::TestLaws::tests), unfolding(model::specs::Test::both, model::specs::Test::either))]
fn label_outside(start: usize, line: SourceLine) -> bool
    ensures { result ≡ (eqb start 0 or (not (eqb line.statement 0) and not (is_instruction (as_line line)))) }
{
    start == 0 || line.statement != 0 && !lines::is_instruction(line)
}

// Its label, behind the lines of its body so far.
#[tactic(auto, using(model::proofs::TestLaws::tests, crate::proofs::MistakeLaws::in_turn), unfolding(model::specs::Test::pick))]
pub fn label_mistake(start: usize, line: SourceLine, body: &[SourceLine]) -> Result<(), MistakeKind>
    ensures number { found_number result ≡ label_mistake_of start (as_line line) (as_lines body.now) }
    ensures known { finds_known result ≡ true }
{
    if line.label == 0 {
        return Ok(());
    }
    if label_outside(start, line) {
        return Err(MistakeKind::LabelPlace);
    }
    if lines::has_label(body, line.label) {
        return Err(MistakeKind::LabelTaken);
    }
    Ok(())
}

#[tactic(auto, using(model::proofs::TestLaws::tests), unfolding(model::specs::Test::both))]
fn instruction_outside(start: usize, line: SourceLine) -> bool
    ensures { result ≡ (is_instruction (as_line line) and eqb start 0) }
{
    lines::is_instruction(line) && start == 0
}

#[tactic(auto, using(model::proofs::TestLaws::tests), unfolding(model::specs::Test::both))]
fn behind_event(above: &[SourceLine], line: SourceLine) -> bool
    ensures { result ≡ (eqb line.statement task_line and ltb 0 (count event_line (as_lines above.now))) }
{
    line.statement == lines::TASK && lines::count(above, lines::EVENT) > 0
}

// A transaction, a task and an event have a name first.
#[tactic(auto, using(model::proofs::TestLaws::tests), unfolding(crate::specs::Mistakes::name_first, model::specs::Test::both))]
pub fn name_first(statement: u64) -> bool
    ensures { result ≡ name_first statement }
{
    matches!(statement, lines::TRANSACTION..=lines::EVENT)
}

#[tactic(auto, using(model::proofs::TestLaws::tests), unfolding(model::specs::Test::both))]
fn name_taken(above: &[SourceLine], line: SourceLine) -> bool
    ensures { result ≡ (name_first line.statement and ltb (numbered line.statement line.first (as_lines above.now) 0) none) }
{
    name_first(line.statement) && lines::numbered(above, line.statement, line.first) < lines::NONE
}

// memory and entry
#[tactic(auto, using(model::proofs::TestLaws::tests), unfolding(model::specs::Test::either))]
fn is_once(statement: u64) -> bool
    ensures { result ≡ (eqb statement memory_line or eqb statement entry_line) }
{
    matches!(statement, lines::MEMORY | lines::ENTRY)
}

#[tactic(auto, using(model::proofs::TestLaws::tests), unfolding(model::specs::Test::both))]
fn given_above(above: &[SourceLine], line: SourceLine) -> bool
    ensures { result ≡ ((eqb line.statement memory_line or eqb line.statement entry_line) and ltb 0 (count line.statement (as_lines above.now))) }
{
    is_once(line.statement) && lines::count(above, line.statement) > 0
}

// Its place, behind all lines above.
#[tactic(auto, using(model::proofs::TestLaws::tests, crate::proofs::MistakeLaws::in_turn))]
pub fn place_mistake(
    start: usize,
    line: SourceLine,
    above: &[SourceLine],
) -> Result<(), MistakeKind>
    ensures number { found_number result ≡ place_mistake_of start (as_line line) (as_lines above.now) }
    ensures known { finds_known result ≡ true }
{
    if instruction_outside(start, line) {
        return Err(MistakeKind::InstructionPlace);
    }
    if behind_event(above, line) {
        return Err(MistakeKind::TaskPlace);
    }
    if name_taken(above, line) {
        return Err(MistakeKind::NameTaken);
    }
    if given_above(above, line) {
        return Err(MistakeKind::GivenAbove);
    }
    Ok(())
}
