// The lines of a body's instructions, each put at a place of the text; a function answers where what it put ends.
ghost use Rattle.std.specs.Prelude.{◌+◌, ◌≤◌, eqb, length, [], ◌++◌, ◌≡◌};
ghost use Rattle.listing.specs.Listing.{is_target, spaces, margin, register, target, instruction_text, instruction_line, instruction_lines};
ghost use Rattle.listing.specs.Lists.{PrintableBody};
ghost use Rattle.model.specs.Accepted.{HasBody, HasInstruction};
ghost use Rattle.model.specs.Program.{instructions, opcode, code, operand};
ghost use Rattle.model.specs.Test.{pick, ◌and◌};
ghost use Rattle.text.specs.Puts.{Puts};
ghost use Rattle.text.specs.Text.{decimal as decimal_of};
ghost use Rattle.tokens.specs.Uses.{is_jump};

use program::{code, rows};
use text::{decimal, put};
use tokens::{statements, uses};

const GO: u64 = 15;

// Bytes, and a number behind them.
#[tactic(auto, using(crate::proofs::ListingLaws::putting))]
pub fn numbered(text: &mut [u8], at: usize, bytes: &[u8], n: u16) -> usize
    requires { at + length bytes.now + 20 ≤ length text.old }
    ensures puts { Puts text.old at text.new result (bytes.now ++ decimal_of n) }
    ensures upper_bound { result ≤ at + length bytes.now + 5 }
{
    let end = put(text, at, bytes);
    decimal(text, end, n as u64)
}

// An instruction of a body is a jump to this place.
#[tactic(auto, using(model::proofs::TestLaws::tests), unfolding(model::specs::Test::both))]
fn jumps_to(program: &[u16], body: u16, number: u16, place: u16) -> bool
    requires { HasInstruction program.now body number }
    ensures { result ≡ (is_jump (opcode (code program.now body number)) and eqb (operand program.now body number) place) }
{
    let word = code::code(program, body, number);
    uses::is_jump((word / 256) as u64) && code::operand(program, body, number) == place
}

// One of a body's instructions jumps to this place.
#[tactic(auto, using(crate::proofs::ListingLaws::search_for_target), unfolding(crate::specs::Listing::is_target))]
fn is_target(program: &[u16], body: u16, place: u16) -> bool
    requires { HasBody program.now body }
    ensures { result ≡ is_target program.now body place (instructions program.now body) }
{
    for number in 0..rows::instructions(program, body) {
        if jumps_to(program, body, number, place) {
            return true;
        }
    }
    false
}

// Behind a label and its colon.
#[tactic(auto, using(crate::proofs::ListingLaws::putting, model::proofs::TestLaws::tests), unfolding(crate::specs::Listing::spaces, model::specs::Test::pick))]
fn spaces(text: &mut [u8], at: usize, place: u16) -> usize
    requires { at + 4 ≤ length text.old }
    ensures puts { Puts text.old at text.new result (spaces place) }
    ensures upper_bound { result ≤ at + 4 }
{
    if place < 10 {
        return put(text, at, b"    ");
    }
    if place < 100 {
        return put(text, at, b"   ");
    }
    put(text, at, b"  ")
}

// Spaces, or the label where a jump goes.
#[tactic(auto, using(crate::proofs::ListingLaws::putting), unfolding(crate::specs::Listing::margin, crate::specs::Listing::label_name, model::specs::Test::pick))]
fn margin(text: &mut [u8], at: usize, program: &[u16], body: u16, place: u16) -> usize
    requires room_left { at + 22 ≤ length text.old }
    requires has_body { HasBody program.now body }
    ensures puts { Puts text.old at text.new result (margin program.now body place) }
    ensures upper_bound { result ≤ at + 12 }
{
    if !is_target(program, body, place) {
        return put(text, at, b"        ");
    }
    let end = numbered(text, at, b"at", place);
    let end = put(text, end, b":");
    spaces(text, end, place)
}

#[tactic(auto, using(crate::proofs::ListingLaws::putting), unfolding(crate::specs::Listing::register, text::specs::Text::spaced, model::specs::Test::pick))]
fn register(text: &mut [u8], at: usize, used: bool, n: u16) -> usize
    requires { at + 21 ≤ length text.old }
    ensures puts { Puts text.old at text.new result (register used n) }
    ensures upper_bound { result ≤ at + 6 }
{
    if !used {
        return at;
    }
    numbered(text, at, b" ", n)
}

// k: a label, a task's name or a number.
#[tactic(auto, using(crate::proofs::ListingLaws::putting, model::proofs::TestLaws::tests), unfolding(crate::specs::Listing::target, crate::specs::Listing::label_name, crate::specs::Listing::task_name, text::specs::Text::spaced, model::specs::Test::pick))]
fn target(text: &mut [u8], at: usize, opcode: u64, k: u16) -> usize
    requires { at + 25 ≤ length text.old }
    ensures puts { Puts text.old at text.new result (target opcode k) }
    ensures upper_bound { result ≤ at + 10 }
{
    if uses::is_jump(opcode) {
        return numbered(text, at, b" at", k);
    }
    if opcode == GO {
        return numbered(text, at, b" task", k);
    }
    numbered(text, at, b" ", k)
}

#[tactic(auto, using(crate::proofs::ListingLaws::putting), unfolding(model::specs::Test::pick))]
fn operand(text: &mut [u8], at: usize, used: bool, opcode: u64, k: u16) -> usize
    requires { at + 25 ≤ length text.old }
    ensures puts { Puts text.old at text.new result (pick used (target opcode k) []) }
    ensures upper_bound { result ≤ at + 10 }
{
    if !used {
        return at;
    }
    target(text, at, opcode, k)
}

// The opcode's name and the fields that it uses.
#[tactic(auto, using(crate::proofs::ListingLaws::putting, crate::proofs::ListingLaws::few_letters), unfolding(crate::specs::Listing::instruction_text))]
fn instruction(text: &mut [u8], at: usize, word: u16, k: u16) -> usize
    requires room_left { at + 48 ≤ length text.old }
    requires known_opcode { opcode word ≤ 16 }
    ensures puts { Puts text.old at text.new result (instruction_text word k) }
    ensures upper_bound { result ≤ at + 28 }
{
    let opcode = (word / 256) as u64;
    let used = uses::used(opcode);
    let end = statements::put_name(text, at, opcode);
    let end = register(text, end, used.a, word / 16 % 16);
    let end = register(text, end, used.b, word % 16);
    let end = operand(text, end, used.k, opcode, k);
    put(text, end, b"\n")
}

#[tactic(auto, using(crate::proofs::ListingLaws::putting), unfolding(crate::specs::Listing::instruction_line))]
fn line(text: &mut [u8], at: usize, program: &[u16], body: u16, number: u16) -> usize
    requires room_left { at + 60 ≤ length text.old }
    requires has_instruction { HasInstruction program.now body number }
    requires known_opcode { opcode (code program.now body number) ≤ 16 }
    ensures puts { Puts text.old at text.new result (instruction_line program.now body number) }
    ensures upper_bound { result ≤ at + 40 }
{
    let end = margin(text, at, program, body, number);
    let word = code::code(program, body, number);
    let k = code::operand(program, body, number);
    instruction(text, end, word, k)
}

// The lines of a body's instructions.
#[tactic(auto, using(crate::proofs::ListingLaws::putting, crate::proofs::ListingLaws::one_more), unfolding(crate::specs::Listing::instruction_lines))]
pub fn lines(text: &mut [u8], at: usize, program: &[u16], body: u16) -> usize
    requires room_left { at + 10300 ≤ length text.old }
    requires printable_body { PrintableBody program.now body }
    ensures puts { Puts text.old at text.new result
        (instruction_lines program.now body (instructions program.now body)) }
    ensures upper_bound { result ≤ at + 10240 }
{
    let mut end = at;
    for number in 0..rows::instructions(program, body) {
        end = line(text, end, program, body, number);
    }
    end
}
