// What is looked up in a text's lines.
ghost use Rattle.std.specs.Prelude.{◌+◌, ◌-◌, ◌≤◌, ◌<◌, eqb, length, drop, ◌≡◌};
ghost use Rattle.assembly.specs.Lines.{as_line, as_lines, is_body, is_instruction, is_of, one, count_from, body_count, is_named, numbered, transaction_value, label_number, has_label, given, place_of};
ghost use Rattle.model.specs.Test.{◌and◌};

use tokens::SourceLine;

pub const MEMORY: u64 = 18;

pub const ENTRY: u64 = 19;

pub const TRANSACTION: u64 = 20;

pub const TASK: u64 = 21;

pub const EVENT: u64 = 22;

pub const BODY: u64 = 24;

pub const INSTRUCTION: u64 = 25;

// None of so many lines. It is a number like the others, as in the definitions of specs/Lines.antt, which a word of a line may equal.
pub const NONE: u64 = 65536;

#[tactic(auto, using(model::proofs::TestLaws::tests), unfolding(crate::specs::Lines::is_body, model::specs::Test::both))]
pub fn is_body(line: SourceLine) -> bool
    ensures { result ≡ is_body (as_line line) }
{
    matches!(line.statement, TASK..=EVENT)
}

#[tactic(auto, using(model::proofs::TestLaws::tests), unfolding(crate::specs::Lines::is_instruction, model::specs::Test::both))]
pub fn is_instruction(line: SourceLine) -> bool
    ensures { result ≡ is_instruction (as_line line) }
{
    matches!(line.statement, 1..=17)
}

#[tactic(auto, using(model::proofs::TestLaws::tests), unfolding(crate::specs::Lines::is_of, model::specs::Test::pick))]
fn is_of(class: u64, line: SourceLine) -> bool
    ensures { result ≡ is_of class (as_line line) }
{
    match class {
        BODY => is_body(line),
        INSTRUCTION => is_instruction(line),
        _ => line.statement == class,
    }
}

#[tactic(auto, unfolding(crate::specs::Lines::one, model::specs::Test::pick))]
fn one(class: u64, line: SourceLine) -> u64
    ensures value { result ≡ one class (as_line line) }
    ensures upper_bound { result ≤ 1 }
{
    if is_of(class, line) { 1 } else { 0 }
}

// How many of the lines are of a class.
#[tactic(auto, using(crate::proofs::LineLaws::walk))]
pub fn count(lines: &[SourceLine], class: u64) -> u64
    ensures value { result ≡ count_from class (as_lines lines.now) 0 }
    ensures upper_bound { result ≤ length lines.now }
{
    let mut counted = 0;
    for &line in lines {
        counted += one(class, line);
    }
    counted
}

// How many instructions come before the next body.
#[tactic(auto, using(crate::proofs::LineLaws::walk))]
pub fn body_count(lines: &[SourceLine]) -> u64
    ensures value { result ≡ body_count (as_lines lines.now) 0 }
    ensures upper_bound { result ≤ length lines.now }
{
    let mut counted = 0;
    for &line in lines {
        if is_body(line) {
            return counted;
        }
        counted += one(INSTRUCTION, line);
    }
    counted
}

#[tactic(auto, using(model::proofs::TestLaws::tests), unfolding(crate::specs::Lines::is_named, model::specs::Test::both))]
fn is_named(statement: u64, name: u64, line: SourceLine) -> bool
    ensures { result ≡ is_named statement name (as_line line) }
{
    line.statement == statement && line.first == name
}

// The number of the statement that has the name.
#[tactic(auto, using(crate::proofs::LineLaws::walk))]
pub fn numbered(lines: &[SourceLine], statement: u64, name: u64) -> u64
    ensures { result ≡ numbered statement name (as_lines lines.now) 0 }
{
    let mut number = 0;
    for &line in lines {
        if is_named(statement, name, line) {
            return number;
        }
        number += one(statement, line);
    }
    NONE
}

pub fn value(word: u64) -> u64
    ensures { result ≡ word - 1 }
{
    word.saturating_sub(1)
}

// The number that a transaction's name stands for.
#[tactic(auto, using(crate::proofs::LineLaws::walk))]
pub fn transaction_value(lines: &[SourceLine], name: u64) -> u64
    ensures { result ≡ transaction_value name (as_lines lines.now) }
{
    for &line in lines {
        if is_named(TRANSACTION, name, line) {
            return value(line.second);
        }
    }
    NONE
}

// The number of the instruction that a label stands for, in the body that the lines begin with.
#[tactic(auto, using(crate::proofs::LineLaws::walk, model::proofs::TestLaws::tests))]
pub fn label_number(lines: &[SourceLine], name: u64) -> u64
    ensures { result ≡ label_number name (as_lines lines.now) 0 }
{
    let mut number = 0;
    for &line in lines {
        if is_body(line) {
            return NONE;
        }
        if line.label == name {
            return number;
        }
        number += one(INSTRUCTION, line);
    }
    NONE
}

// Whether a line has the label.
#[tactic(auto, using(crate::proofs::LineLaws::walk, model::proofs::TestLaws::tests))]
pub fn has_label(lines: &[SourceLine], name: u64) -> bool
    ensures { result ≡ has_label name (as_lines lines.now) }
{
    for &line in lines {
        if line.label == name {
            return true;
        }
    }
    false
}

// The first word of the first such statement; 0 where there is none.
#[tactic(auto, using(crate::proofs::LineLaws::walk, model::proofs::TestLaws::tests))]
pub fn given(lines: &[SourceLine], statement: u64) -> u64
    ensures { result ≡ given statement (as_lines lines.now) }
{
    for &line in lines {
        if line.statement == statement {
            return line.first;
        }
    }
    0
}

// The lines of a class that still come before the one that is looked for.
fn left_of(class: u64, before: u64, line: SourceLine) -> u64
    ensures { result ≡ before - one class (as_line line) }
{
    before.saturating_sub(one(class, line))
}

#[tactic(auto, using(model::proofs::TestLaws::tests), unfolding(model::specs::Test::both))]
fn is_last(class: u64, before: u64, line: SourceLine) -> bool
    ensures { result ≡ (is_of class (as_line line) and eqb before 0) }
{
    is_of(class, line) && before == 0
}

// The place of the line of a class that has so many before it, from line `from` on; the last where there is none.
#[tactic(auto, using(crate::proofs::LineLaws::walk))]
pub fn place_of(lines: &[SourceLine], from: usize, class: u64, before: u64, last: usize) -> usize
    requires { from ≤ length lines.now }
    ensures value { result ≡ place_of class before (as_lines (drop from lines.now)) from last }
    ensures upper_bound { last < length lines.now → result < length lines.now }
{
    let mut left = before;
    for i in from..lines.len() {
        let line = lines[i];
        if is_last(class, left, line) {
            return i;
        }
        left = left_of(class, left, line);
    }
    last
}
