// A call as it is printed, and its answer, each put at a place of the text; a function answers where what it put ends.
ghost use Rattle.std.specs.Prelude.{◌+◌, ◌≤◌, length, ◌≡◌};
ghost use Rattle.script.specs.Reads.{number_of};
ghost use Rattle.text.specs.Puts.{Puts};
ghost use Rattle.text.specs.Text.{spaced as spaced_of};
ghost use Rattle.trace.specs.Trace.{shown_numbers, call_text, body_text, accepted_text, refused_text, answer_text, answer_cell};

use crate::layout::field;
use script::Name;
use text::{decimal, put, spaced};

// How many of its numbers are shown.
#[tactic(auto, unfolding(crate::specs::Trace::shown_numbers, crate::specs::Trace::shown_counts, script::specs::Reads::number_of))]
fn shown_numbers(name: Name) -> u8
    ensures { result ≡ shown_numbers (number_of name) }
{
    match name {
        Name::Format | Name::Post | Name::Raise | Name::SetProgram | Name::SetStore => 2,
        Name::Burst | Name::Run | Name::ProgramLength | Name::StoreLength => 1,
        _ => 0,
    }
}

// A number behind a space.
#[tactic(auto, using(text::proofs::TextLaws::puts), unfolding(text::specs::Text::spaced))]
fn shown(text: &mut [u8], at: usize, n: u64) -> usize
    requires { at + 21 ≤ length text.old }
    ensures puts { Puts text.old at text.new result (spaced_of n) }
    ensures upper_bound { result ≤ at + 21 }
{
    let end = put(text, at, b" ");
    decimal(text, end, n)
}

#[tactic(auto, using(text::proofs::TextLaws::puts, model::proofs::TestLaws::tests), unfolding(crate::specs::Trace::call_text, script::specs::Reads::text_of, model::specs::Test::pick))]
pub fn call_text(text: &mut [u8], at: usize, name: Name, first: u64, second: u64) -> usize
    requires { at + 56 ≤ length text.old }
    ensures puts { Puts text.old at text.new result (call_text (number_of name) first second) }
    ensures upper_bound { result ≤ at + 56 }
{
    let count = shown_numbers(name);
    let end = put(text, at, name.text());
    if count < 1 {
        return end;
    }
    let end = shown(text, end, first);
    if count < 2 {
        return end;
    }
    shown(text, end, second)
}

#[tactic(auto, using(text::proofs::TextLaws::puts, model::proofs::TestLaws::tests), unfolding(crate::specs::Trace::body_text, crate::specs::Trace::field, model::specs::Test::pick))]
fn body_text(text: &mut [u8], at: usize, answer: &[u16; 6]) -> usize
    requires { at + 27 ≤ length text.old }
    ensures puts { Puts text.old at text.new result (body_text answer.now) }
    ensures upper_bound { result ≤ at + 27 }
{
    if answer[1] == 0 {
        return field(text, at, b" task", answer[2]);
    }
    field(text, at, b" event", answer[2])
}

#[tactic(auto, using(text::proofs::TextLaws::puts, model::proofs::TestLaws::tests), unfolding(crate::specs::Trace::accepted_text, model::specs::Test::pick))]
fn accepted_text(text: &mut [u8], at: usize, answer: &[u16; 6]) -> usize
    requires { at + 59 ≤ length text.old }
    ensures puts { Puts text.old at text.new result (accepted_text answer.now) }
    ensures upper_bound { result ≤ at + 59 }
{
    if answer[1] == 1 {
        let end = put(text, at, b"accepted, dropped");
        let end = spaced(text, end, answer[2]);
        return spaced(text, end, answer[3]);
    }
    put(text, at, b"accepted")
}

#[tactic(auto, using(text::proofs::TextLaws::puts), unfolding(crate::specs::Trace::refused_text))]
fn refused_text(text: &mut [u8], at: usize, answer: &[u16; 6]) -> usize
    requires { at + 70 ≤ length text.old }
    ensures puts { Puts text.old at text.new result (refused_text answer.now) }
    ensures upper_bound { result ≤ at + 70 }
{
    let end = put(text, at, b"refused");
    let end = spaced(text, end, answer[2]);
    let end = spaced(text, end, answer[3]);
    spaced(text, end, answer[4])
}

// By the answer's first word: its cases stay numbers, as the C header has them.
#[tactic(auto, using(text::proofs::TextLaws::puts), unfolding(crate::specs::Trace::answer_text, crate::specs::Trace::answer_texts))]
fn answer_text(text: &mut [u8], at: usize, answer: &[u16; 6]) -> usize
    requires { at + 70 ≤ length text.old }
    ensures puts { Puts text.old at text.new result (answer_text answer.now) }
    ensures upper_bound { result ≤ at + 70 }
{
    let case = answer[0];
    match case {
        0 => put(text, at, b"done"),
        1 => {
            let end = put(text, at, b"chosen");
            body_text(text, end, answer)
        }
        2 => put(text, at, b"worked"),
        3 => put(text, at, b"stored"),
        4 => {
            let end = put(text, at, b"committed");
            body_text(text, end, answer)
        }
        5 => accepted_text(text, at, answer),
        6 => refused_text(text, at, answer),
        7 => put(text, at, b"spent"),
        8 => put(text, at, b"no device"),
        9..=0xFFFF => put(text, at, b"nothing posted"),
    }
}

// What a call of this name answered, a run behind its steps; nothing of what is no call of the runtime.
#[tactic(auto, using(text::proofs::TextLaws::puts), unfolding(crate::specs::Trace::answer_cell, script::specs::Reads::number_of, model::specs::Test::pick))]
pub fn answer_cell(text: &mut [u8], at: usize, name: Name, steps: u32, answer: &[u16; 6]) -> usize
    requires { at + 98 ≤ length text.old }
    ensures puts { Puts text.old at text.new result
        (answer_cell (number_of name) steps answer.now) }
    ensures upper_bound { result ≤ at + 98 }
{
    match name {
        Name::Run => {
            let end = decimal(text, at, steps as u64);
            let end = put(text, end, b" steps, ");
            answer_text(text, end, answer)
        }
        Name::SetProgram | Name::SetStore | Name::ProgramLength | Name::StoreLength => at,
        Name::SetDevice | Name::SetTotals | Name::Keep | Name::Restore => at,
        _ => answer_text(text, at, answer),
    }
}
