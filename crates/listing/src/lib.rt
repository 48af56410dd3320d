// A program as text: `disassemble` checks program words and prints them, if the check accepts them, as docs/ASSEMBLY.md says. A line has 40 bytes
// at most and a body 257 lines, 10280 bytes, so that the text has room for every program.

#![tactic(auto)]

ghost use Rattle.std.specs.Prelude.{◌+◌, ◌≤◌, length, ◌++◌, ◌≡◌};
ghost use Rattle.listing.specs.Listing.{has_number, transaction_line, transaction_lines, instruction_lines, transaction_word, heading, body_lines, first_lines};
ghost use Rattle.listing.specs.Lists.{Lists, PrintableBody, Printable};
ghost use Rattle.model.specs.Accepted.{Contents, RowsInside, HasRow};
ghost use Rattle.model.specs.Program.{tasks, bodies, instructions};
ghost use Rattle.text.specs.Puts.{Puts};

use lines::numbered;
use model::Refusal;
use program::rows;
use text::put;

mod lines;

#[tactic(auto, using(crate::proofs::ListingLaws::putting), unfolding(crate::specs::Listing::first_lines, text::specs::Text::spaced, crate::specs::Listing::task_name))]
fn first_lines(text: &mut [u8], program: &[u16]) -> usize
    requires room_left { 60 ≤ length text.old }
    requires contents { Contents program.now }
    ensures puts { Puts text.old 0 text.new result (first_lines program.now) }
    ensures upper_bound { result ≤ 40 }
{
    let end = numbered(text, 0, b"memory ", program[3]);
    let end = put(text, end, b"\nentry ");
    let end = numbered(text, end, b"task", program[4]);
    put(text, end, b"\n")
}

// A task has this transaction number.
#[tactic(auto, using(model::proofs::TestLaws::tests, crate::proofs::ListingLaws::search_for_number), unfolding(crate::specs::Listing::has_number))]
fn has_number(program: &[u16], n: u16) -> bool
    requires { RowsInside program.now }
    ensures { result ≡ has_number program.now n (tasks program.now) }
{
    for task in 0..program[1] {
        if rows::transaction(program, task) == n {
            return true;
        }
    }
    false
}

#[tactic(auto, using(crate::proofs::ListingLaws::putting), unfolding(crate::specs::Listing::transaction_line, crate::specs::Listing::transaction_name, text::specs::Text::spaced, model::specs::Test::pick))]
fn transaction_line(text: &mut [u8], at: usize, program: &[u16], n: u16) -> usize
    requires room_left { at + 60 ≤ length text.old }
    requires rows_inside { RowsInside program.now }
    ensures puts { Puts text.old at text.new result (transaction_line program.now n) }
    ensures upper_bound { result ≤ at + 40 }
{
    if !has_number(program, n) {
        return at;
    }
    let end = numbered(text, at, b"transaction trans", n);
    let end = numbered(text, end, b" ", n);
    put(text, end, b"\n")
}

// The lines of the transaction numbers that tasks have.
#[tactic(auto, using(crate::proofs::ListingLaws::putting, crate::proofs::ListingLaws::one_more), unfolding(crate::specs::Listing::transaction_lines))]
fn transaction_lines(text: &mut [u8], at: usize, program: &[u16]) -> usize
    requires room_left { at + 10300 ≤ length text.old }
    requires rows_inside { RowsInside program.now }
    ensures puts { Puts text.old at text.new result (transaction_lines program.now 255) }
    ensures upper_bound { result ≤ at + 10200 }
{
    let mut end = at;
    for n in 0..255 {
        end = transaction_line(text, end, program, n + 1);
    }
    end
}

// A task's transaction, behind its name.
#[tactic(auto, using(crate::proofs::ListingLaws::putting, model::proofs::TestLaws::tests), unfolding(crate::specs::Listing::transaction_word, crate::specs::Listing::transaction_name, model::specs::Test::pick))]
fn transaction_word(text: &mut [u8], at: usize, n: u16) -> usize
    requires { at + 26 ≤ length text.old }
    ensures puts { Puts text.old at text.new result (transaction_word n) }
    ensures upper_bound { result ≤ at + 11 }
{
    if n == 0 {
        return at;
    }
    numbered(text, at, b" trans", n)
}

// An empty line, and the line that begins a body.
#[tactic(auto, using(crate::proofs::ListingLaws::putting, model::proofs::TestLaws::tests), unfolding(crate::specs::Listing::heading, crate::specs::Listing::task_name, crate::specs::Listing::event_name, model::specs::Test::pick))]
fn heading(text: &mut [u8], at: usize, program: &[u16], body: u16) -> usize
    requires room_left { at + 60 ≤ length text.old }
    requires has_row { HasRow program.now body }
    ensures puts { Puts text.old at text.new result (heading program.now body) }
    ensures upper_bound { result ≤ at + 40 }
{
    if body < program[1] {
        let end = numbered(text, at, b"\ntask task", body);
        let end = transaction_word(text, end, rows::transaction(program, body));
        return put(text, end, b"\n");
    }
    let end = numbered(text, at, b"\nevent event", body - program[1]);
    put(text, end, b"\n")
}

#[tactic(auto, using(crate::proofs::ListingLaws::putting))]
fn body(text: &mut [u8], at: usize, program: &[u16], body: u16) -> usize
    requires room_left { at + 10360 ≤ length text.old }
    requires printable_body { PrintableBody program.now body }
    ensures puts { Puts text.old at text.new result (heading program.now body
        ++ instruction_lines program.now body (instructions program.now body)) }
    ensures upper_bound { result ≤ at + 10280 }
{
    let end = heading(text, at, program, body);
    lines::lines(text, end, program, body)
}

// Tasks, then events.
#[tactic(auto, using(crate::proofs::ListingLaws::putting, crate::proofs::ListingLaws::one_more), unfolding(crate::specs::Listing::body_lines))]
fn body_lines(text: &mut [u8], at: usize, program: &[u16]) -> usize
    requires room_left { at + 503800 ≤ length text.old }
    requires printable { Printable program.now }
    ensures puts { Puts text.old at text.new result (body_lines program.now (bodies program.now)) }
    ensures upper_bound { result ≤ at + 493440 }
{
    let mut end = at;
    for number in 0..program[1] + program[2] {
        end = body(text, end, program, number);
    }
    end
}

// Where the program's text ends, or its refusal.
pub fn disassemble(program: &[u16], text: &mut [u8; 524288]) -> Result<usize, Refusal>
    ensures { Lists program.now text.new result }
{
    program::check(program)?;
    let end = first_lines(text, program);
    let end = transaction_lines(text, end, program);
    let end = body_lines(text, end, program);
    Ok(end)
}
