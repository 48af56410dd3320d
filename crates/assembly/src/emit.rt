// The program words of a text's lines: contents, rows, bodies.
ghost use Rattle.std.specs.Prelude.{◌+◌, ◌*◌, ◌-◌, ◌≤◌, ◌<◌, length, ◌≡◌};
ghost use Rattle.text.specs.Puts.{Puts};
ghost use Rattle.assembly.specs.Lines.{as_line, as_lines, line_at, lines_at, body_line, instruction_line, count, one};
ghost use Rattle.assembly.specs.Mistakes.{opcode_of, operand_of, program_length};
ghost use Rattle.model.specs.Test.{pick};
ghost use Rattle.tokens.specs.Tokens.{all_numbers};
ghost use Rattle.tokens.specs.Uses.{uses_k};
ghost use Rattle.assembly.specs.Words.{as_word, as_register, task_of, label_of, transaction_of, first_word, second_word, instruction_words, body_words, row_words, rows, contents, words as words_of};

use crate::{lines, mistakes, statement};
use tokens::{SourceLine, uses};

const MARK: u16 = 0xC0B1;

const GO: u64 = 15;

#[tactic(auto, unfolding(crate::specs::Words::as_word))]
fn as_word(n: u64) -> u16
    ensures { result ≡ as_word n }
{
    n.min(65535) as u16
}

#[tactic(auto, unfolding(crate::specs::Words::as_register))]
fn as_register(n: u64) -> u16
    ensures value { result ≡ as_register n }
    ensures upper_bound { result ≤ 15 }
{
    n.min(15) as u16
}

#[tactic(auto, using(model::proofs::TestLaws::tests, crate::proofs::LineLaws::room), unfolding(crate::specs::Words::task_of, model::specs::Test::pick))]
fn task_of(lines: &[SourceLine], word: u64) -> u64
    ensures { result ≡ task_of (all_numbers lines.now) (length lines.now) word }
{
    if statement::is_name(word) {
        return lines::numbered(lines, lines::TASK, word);
    }
    lines::value(word)
}

#[tactic(auto, using(model::proofs::TestLaws::tests, crate::proofs::LineLaws::room), unfolding(crate::specs::Words::label_of, model::specs::Test::pick))]
fn label_of(lines: &[SourceLine], start: usize, word: u64) -> u64
    requires { start ≤ length lines.now }
    ensures { result ≡ label_of (all_numbers lines.now) (length lines.now) start word }
{
    if statement::is_name(word) {
        return lines::label_number(&lines[start..], word);
    }
    lines::value(word)
}

#[tactic(auto, using(model::proofs::TestLaws::tests, crate::proofs::LineLaws::room), unfolding(crate::specs::Words::transaction_of, model::specs::Test::pick))]
fn transaction_of(lines: &[SourceLine], word: u64) -> u64
    ensures { result ≡ transaction_of (all_numbers lines.now) (length lines.now) word }
{
    if statement::is_name(word) {
        return lines::transaction_value(lines, word);
    }
    lines::value(word)
}

// A register that is used, or 0.
#[tactic(auto, unfolding(model::specs::Test::pick))]
fn field(used: bool, word: u64) -> u16
    ensures value { result ≡ pick used (as_register (word - 1)) 0 }
    ensures upper_bound { result ≤ 15 }
{
    if used {
        return as_register(lines::value(word));
    }
    0
}

// "opcode × 256 + a × 16 + b"
#[tactic(auto, unfolding(crate::specs::Words::first_word))]
fn first_word(line: SourceLine) -> u16
    requires { (1 ≤ line.statement) × (line.statement ≤ 17) }
    ensures { result ≡ first_word (as_line line) }
{
    let opcode = line.statement - 1;
    let used = uses::used(opcode);
    256 * (opcode as u16) + 16 * field(used.a, line.first) + field(used.b, line.second)
}

// k where it is a number, or 0.
#[tactic(auto, unfolding(model::specs::Test::pick))]
fn plain(line: SourceLine) -> u64
    requires { (1 ≤ line.statement) × (line.statement ≤ 17) }
    ensures { result ≡ pick (uses_k (opcode_of (as_line line))) (operand_of (as_line line) - 1) 0 }
{
    let used = uses::used(line.statement - 1);
    if used.k {
        return lines::value(mistakes::operand_of(line));
    }
    0
}

#[tactic(auto, using(model::proofs::TestLaws::tests), unfolding(crate::specs::Words::second_word, model::specs::Test::pick))]
fn second_word(lines: &[SourceLine], start: usize, line: SourceLine) -> u16
    requires start_in_bounds { start ≤ length lines.now }
    requires is_instruction { (1 ≤ line.statement) × (line.statement ≤ 17) }
    ensures { result ≡ second_word (all_numbers lines.now) (length lines.now) start (as_line line) }
{
    let opcode = line.statement - 1;
    if uses::is_jump(opcode) {
        return as_word(label_of(lines, start, mistakes::operand_of(line)));
    }
    if opcode == GO {
        return as_word(task_of(lines, mistakes::operand_of(line)));
    }
    as_word(plain(line))
}

// New words at a place, and where they end.
#[tactic(auto, using(std::proofs::lemmas::Slice::overwrites))]
fn put(words: &mut [u16], at: usize, new: &[u16]) -> usize
    requires { at + length new.now ≤ length words.old }
    ensures { Puts words.old at words.new result new.now }
{
    let end = at + new.len();
    words[at..end].copy_from_slice(new);
    end
}

// The words of line i, where it is an instruction.
#[tactic(auto, using(crate::proofs::WordLaws::putting, crate::proofs::LineLaws::room, crate::proofs::LineLaws::instruction_in), unfolding(crate::specs::Words::instruction_words, model::specs::Test::pick))]
fn put_instruction(
    lines: &[SourceLine],
    start: usize,
    i: usize,
    words: &mut [u16],
    at: usize,
) -> usize
    requires start_le_i { (start ≤ i) × (i < length lines.now) }
    requires room_left { at + 2 * one instruction_line (line_at (all_numbers lines.now) i) ≤ length words.old }
    ensures { Puts words.old at words.new result
        (instruction_words (all_numbers lines.now) (length lines.now) start (line_at (all_numbers lines.now) i)) }
{
    let line = lines[i];
    if lines::is_instruction(line) {
        let new = [first_word(line), second_word(lines, start, line)];
        return put(words, at, &new);
    }
    at
}

// The row of line i, where it is a body's.
#[tactic(auto, using(crate::proofs::WordLaws::putting, crate::proofs::LineLaws::room), unfolding(crate::specs::Words::row_words, crate::specs::Words::start_of, model::specs::Test::pick))]
fn put_row(lines: &[SourceLine], i: usize, words: &mut [u16], at: usize) -> usize
    requires i_in_bounds { i < length lines.now }
    requires room_left { at + 3 * one body_line (line_at (all_numbers lines.now) i) ≤ length words.old }
    ensures { Puts words.old at words.new result (row_words (all_numbers lines.now) (length lines.now) i) }
{
    let line = lines[i];
    if lines::is_body(line) {
        let start = 6
            + 3 * lines::count(lines, lines::BODY)
            + 2 * lines::count(&lines[..i], lines::INSTRUCTION);
        let new = [
            as_word(start),
            as_word(lines::body_count(&lines[i + 1..])),
            as_word(transaction_of(lines, mistakes::transaction_word(line))),
        ];
        return put(words, at, &new);
    }
    at
}

#[tactic(auto, using(crate::proofs::WordLaws::putting, crate::proofs::LineLaws::room), unfolding(crate::specs::Words::rows))]
fn put_rows(lines: &[SourceLine], words: &mut [u16], at: usize) -> usize
    requires room_left { at + 3 * count body_line (as_lines lines.now) ≤ length words.old }
    ensures puts { Puts words.old at words.new result (rows (all_numbers lines.now) (length lines.now) (length lines.now)) }
    ensures value { result ≡ at + 3 * count body_line (as_lines lines.now) }
{
    let mut end = at;
    for i in 0..lines.len() {
        end = put_row(lines, i, words, end);
    }
    end
}

#[tactic(auto, using(crate::proofs::WordLaws::putting, crate::proofs::LineLaws::room), unfolding(crate::specs::Words::body_words))]
fn put_bodies(lines: &[SourceLine], words: &mut [u16], at: usize) -> usize
    requires room_left { at + 2 * count instruction_line (as_lines lines.now) ≤ length words.old }
    ensures { Puts words.old at words.new result (body_words (all_numbers lines.now) (length lines.now) (length lines.now)) }
{
    let mut end = at;
    let mut start = 0;
    for i in 0..lines.len() {
        end = put_instruction(lines, start, i, words, end);
        start = mistakes::next_start(lines, start, i);
    }
    end
}

// "Words 0 to 5"
#[tactic(auto, using(crate::proofs::WordLaws::putting, crate::proofs::LineLaws::room), unfolding(crate::specs::Words::contents, model::specs::Program::program_mark))]
fn put_contents(lines: &[SourceLine], words: &mut [u16]) -> usize
    requires room_left { 6 ≤ length words.old }
    ensures puts { Puts words.old 0 words.new result (contents (all_numbers lines.now) (length lines.now)) }
    ensures value { result ≡ 6 }
{
    let new = [
        MARK,
        as_word(lines::count(lines, lines::TASK)),
        as_word(lines::count(lines, lines::EVENT)),
        as_word(lines::value(lines::given(lines, lines::MEMORY))),
        as_word(task_of(lines, lines::given(lines, lines::ENTRY))),
        as_word(mistakes::program_length(lines)),
    ];
    put(words, 0, &new)
}

// The whole program, where there is room for it.
#[tactic(auto, using(crate::proofs::WordLaws::putting, crate::proofs::LineLaws::room), unfolding(crate::specs::Words::words, crate::specs::Mistakes::program_length))]
pub fn put_words(lines: &[SourceLine], words: &mut [u16]) -> usize
    requires room_left { program_length (all_numbers lines.now) (length lines.now) ≤ length words.old }
    ensures { Puts words.old 0 words.new result (words_of (all_numbers lines.now) (length lines.now)) }
{
    let end = put_contents(lines, words);
    let end = put_rows(lines, words, end);
    put_bodies(lines, words, end)
}
