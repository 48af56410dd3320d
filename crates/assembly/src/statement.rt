// A statement by itself: how many words it has, and whether each is a name or a number.
ghost use Rattle.std.specs.Prelude.{◌+◌, ◌-◌, ◌≤◌, ◌<◌, true, not, ◌≡◌};
ghost use Rattle.model.specs.Test.{◌and◌, ◌or◌};
ghost use Rattle.assembly.specs.Mistakes.{bit, operands, words_least, words_most, words_behind, number_only, number_first, number_second, number_third, kind_mistake, count_mistake, statement_mistake, found_number, finds_known};
ghost use Rattle.assembly.specs.Lines.{as_line, is_name_word};
ghost use Rattle.tokens.specs.Uses.{uses_a, uses_b};

use crate::{MistakeKind, lines, place};
use tokens::{SourceLine, uses};

const OTHER: u64 = 23;

const GO: u64 = 15;

#[tactic(auto, unfolding(crate::specs::Mistakes::bit, model::specs::Test::pick))]
fn bit(b: bool) -> u64
    ensures value { result ≡ bit b }
    ensures upper_bound { result ≤ 1 }
{
    if b { 1 } else { 0 }
}

// How many of a, b and k an opcode uses.
#[tactic(auto, unfolding(crate::specs::Mistakes::operands))]
fn operands(opcode: u64) -> u64
    requires { opcode ≤ 16 }
    ensures { result ≡ operands opcode }
{
    let used = uses::used(opcode);
    bit(used.a) + bit(used.b) + bit(used.k)
}

#[tactic(auto, using(model::proofs::TestLaws::tests), unfolding(crate::specs::Mistakes::words_least, model::specs::Test::pick))]
fn words_least(statement: u64) -> u64
    ensures { result ≡ words_least statement }
{
    match statement {
        0 => 0,
        1..=17 => operands(statement - 1),
        lines::TRANSACTION => 2,
        _ => 1,
    }
}

#[tactic(auto, using(model::proofs::TestLaws::tests), unfolding(crate::specs::Mistakes::words_most, model::specs::Test::pick))]
fn words_most(statement: u64) -> u64
    ensures { result ≡ words_most statement }
{
    if statement == lines::TASK {
        2
    } else {
        words_least(statement)
    }
}

// The words behind the statement.
#[tactic(auto, using(model::proofs::TestLaws::tests), unfolding(crate::specs::Mistakes::words_behind, model::specs::Test::pick))]
fn words_behind(line: SourceLine) -> u64
    ensures { result ≡ words_behind (as_line line) }
{
    if line.first == 0 {
        return 0;
    }
    if line.second == 0 {
        return 1;
    }
    if line.third == 0 {
        return 2;
    }
    3
}

#[tactic(auto, using(model::proofs::TestLaws::tests, crate::proofs::MistakeLaws::in_turn), unfolding(crate::specs::Mistakes::count_mistake, model::specs::Test::either))]
fn count_mistake(line: SourceLine) -> Result<(), MistakeKind>
    ensures number { found_number result ≡ count_mistake (as_line line) }
    ensures known { finds_known result ≡ true }
{
    let behind = words_behind(line);
    if behind < words_least(line.statement) || words_most(line.statement) < behind {
        return Err(MistakeKind::WordCount);
    }
    Ok(())
}

// k is a number and nothing else.
#[tactic(auto, using(model::proofs::TestLaws::tests), unfolding(crate::specs::Mistakes::number_only, model::specs::Test::both))]
fn number_only(opcode: u64) -> bool
    ensures { result ≡ number_only opcode }
{
    !uses::is_jump(opcode) && opcode != GO
}

#[tactic(auto, using(model::proofs::TestLaws::tests, crate::proofs::LineLaws::instruction_in), unfolding(crate::specs::Mistakes::number_first, model::specs::Test::both, model::specs::Test::either))]
fn number_first(line: SourceLine) -> bool
    ensures { result ≡ number_first (as_line line) }
{
    line.statement == lines::MEMORY
        || lines::is_instruction(line) && uses::used(line.statement - 1).a
}

// The second word of an instruction is b, or k.
#[tactic(auto, using(model::proofs::TestLaws::tests), unfolding(model::specs::Test::both, model::specs::Test::either))]
fn second_is_number(opcode: u64) -> bool
    requires { opcode ≤ 16 }
    ensures { result ≡ (uses_b opcode or (uses_a opcode and number_only opcode)) }
{
    let used = uses::used(opcode);
    used.b || used.a && number_only(opcode)
}

#[tactic(auto, using(model::proofs::TestLaws::tests, crate::proofs::LineLaws::instruction_in), unfolding(crate::specs::Mistakes::number_second, model::specs::Test::both, model::specs::Test::either))]
fn number_second(line: SourceLine) -> bool
    ensures { result ≡ number_second (as_line line) }
{
    line.statement == lines::TRANSACTION
        || lines::is_instruction(line) && second_is_number(line.statement - 1)
}

// The third word of an instruction is k.
#[tactic(auto, using(model::proofs::TestLaws::tests), unfolding(model::specs::Test::both))]
fn third_is_number(opcode: u64) -> bool
    requires { opcode ≤ 16 }
    ensures { result ≡ (uses_b opcode and number_only opcode) }
{
    uses::used(opcode).b && number_only(opcode)
}

#[tactic(auto, using(model::proofs::TestLaws::tests, crate::proofs::LineLaws::instruction_in), unfolding(crate::specs::Mistakes::number_third, model::specs::Test::both))]
fn number_third(line: SourceLine) -> bool
    ensures { result ≡ number_third (as_line line) }
{
    lines::is_instruction(line) && third_is_number(line.statement - 1)
}

#[tactic(auto, using(model::proofs::TestLaws::tests))]
pub fn is_name(word: u64) -> bool
    ensures { result ≡ is_name_word word }
{
    word > 65536
}

#[tactic(auto, using(model::proofs::TestLaws::tests, crate::proofs::MistakeLaws::in_turn), unfolding(crate::specs::Mistakes::kind_mistake, model::specs::Test::both))]
fn kind_mistake(line: SourceLine) -> Result<(), MistakeKind>
    ensures number { found_number result ≡ kind_mistake (as_line line) }
    ensures known { finds_known result ≡ true }
{
    if place::name_first(line.statement) && !is_name(line.first) {
        return Err(MistakeKind::NameDue);
    }
    if number_first(line) && is_name(line.first)
        || number_second(line) && is_name(line.second)
        || number_third(line) && is_name(line.third)
    {
        return Err(MistakeKind::NumberDue);
    }
    Ok(())
}

#[tactic(auto, using(model::proofs::TestLaws::tests, crate::proofs::MistakeLaws::in_turn), unfolding(crate::specs::Mistakes::statement_mistake))]
pub fn statement_mistake(line: SourceLine) -> Result<(), MistakeKind>
    ensures number { found_number result ≡ statement_mistake (as_line line) }
    ensures known { finds_known result ≡ true }
{
    if line.statement == OTHER {
        return Err(MistakeKind::NoStatement);
    }
    count_mistake(line)?;
    kind_mistake(line)
}
