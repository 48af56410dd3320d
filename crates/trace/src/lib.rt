// What is printed of a call, as docs/PLAY.md says, put at a place of the text; a function answers where what it put ends.

#![tactic(auto)]

ghost use Rattle.std.specs.Prelude.{◌+◌, ◌-◌, ◌≤◌, length, get_or, [], ◌≡◌};
ghost use Rattle.script.specs.Reads.{number_of, number_of_mistake};
ghost use Rattle.text.specs.Puts.{Puts};
ghost use Rattle.trace.specs.Named.{IsNamed};
ghost use Rattle.trace.specs.Trace.{columns, cells, line, call_line, wrong_texts, unread_line, header};

use answers::{answer_cell, call_text};
use layout::{aligned, padded};
use script::{Mistake, Name};
use stored::{NOTHING, stored_cells, stored_column};
use text::{decimal, put};

mod answers;
mod layout;
pub mod parts;
mod stored;

// For people: the call, its answer and what was stored, the last that is there without spaces behind it.
#[tactic(auto, using(text::proofs::TextLaws::puts, model::proofs::TestLaws::tests), unfolding(crate::specs::Trace::columns, model::specs::Test::pick))]
fn columns(text: &mut [u8], at: usize, call: &[u8], answer: &[u8], store: &[u16], i: u16) -> usize
    requires { (at + 266 ≤ length text.old) × (length call.now ≤ 56) × (length answer.now ≤ 98) }
    ensures puts { Puts text.old at text.new result
        (columns call.now answer.now store.now i) }
    ensures upper_bound { result ≤ at + 266 }
{
    if i != NOTHING {
        let end = padded(text, at, 18, call);
        let end = padded(text, end, 20, answer);
        return stored_column(text, end, store, i);
    }
    if answer.is_empty() {
        return put(text, at, call);
    }
    let end = padded(text, at, 18, call);
    put(text, end, answer)
}

#[tactic(auto, using(text::proofs::TextLaws::puts), unfolding(crate::specs::Trace::cells))]
fn cells(text: &mut [u8], at: usize, call: &[u8], answer: &[u8], store: &[u16], i: u16) -> usize
    requires { (at + 266 ≤ length text.old) × (length call.now ≤ 56) × (length answer.now ≤ 98) }
    ensures puts { Puts text.old at text.new result
        (cells call.now answer.now store.now i) }
    ensures upper_bound { result ≤ at + 266 }
{
    let end = put(text, at, b"\t");
    let end = put(text, end, call);
    let end = put(text, end, b"\t");
    let end = put(text, end, answer);
    stored_cells(text, end, store, i)
}

#[tactic(auto, using(text::proofs::TextLaws::puts), unfolding(crate::specs::Trace::line, model::specs::Test::pick))]
fn line(
    text: &mut [u8],
    at: usize,
    tabs: bool,
    number: u64,
    call: &[u8],
    answer: &[u8],
    store: &[u16],
    i: u16,
) -> usize
    requires { (at + 512 ≤ length text.old) × (length call.now ≤ 56) × (length answer.now ≤ 98) }
    ensures puts { Puts text.old at text.new result
        (line tabs number call.now answer.now store.now i) }
    ensures upper_bound { result ≤ at + 512 }
{
    if tabs {
        let end = decimal(text, at, number);
        let end = cells(text, end, call, answer, store, i);
        return put(text, end, b"\n");
    }
    let end = aligned(text, at, number);
    let end = put(text, end, b"  ");
    let end = columns(text, end, call, answer, store, i);
    put(text, end, b"\n")
}

#[tactic(auto, unfolding(crate::specs::Trace::header, model::specs::Test::pick))]
pub fn header(text: &mut [u8], at: usize, tabs: bool) -> usize
    requires { at + 512 ≤ length text.old }
    ensures puts { Puts text.old at text.new result (header tabs) }
    ensures upper_bound { result ≤ at + 512 }
{
    if tabs {
        return put(text, at, b"line\tcall\tanswer\tword\tname\tvalue\n");
    }
    put(
        text,
        at,
        b"  line  call              answer              stored\n",
    )
}

// A call's line. The answer's sixth word is the index of the word that was stored, 65535 where none was.
#[tactic(auto, using(text::proofs::TextLaws::puts), unfolding(crate::specs::Trace::call_line))]
pub fn named_call_line(
    text: &mut [u8],
    at: usize,
    tabs: bool,
    number: u64,
    name: Name,
    first: u64,
    second: u64,
    steps: u32,
    answer: &[u16; 6],
    store: &[u16],
) -> usize
    requires { at + 512 ≤ length text.old }
    ensures puts { Puts text.old at text.new result
        (call_line tabs number (number_of name) first second steps answer.now store.now) }
    ensures upper_bound { result ≤ at + 512 }
{
    let mut call = [0u8; 56];
    let call_end = call_text(&mut call, 0, name, first, second);
    let mut told = [0u8; 98];
    let told_end = answer_cell(&mut told, 0, name, steps, answer);
    line(
        text,
        at,
        tabs,
        number,
        &call[..call_end],
        &told[..told_end],
        store,
        answer[5],
    )
}

// The name that a number stands for, 0 for the first as well; none behind the last.
#[tactic(auto, unfolding(script::specs::Reads::number_of))]
fn name_of(kind: u64) -> Option<Name>
    ensures { IsNamed kind result }
{
    match kind {
        0 | 1 => Some(Name::Program),
        2 => Some(Name::Sizes),
        3 => Some(Name::Totals),
        4 => Some(Name::Check),
        5 => Some(Name::Format),
        6 => Some(Name::Boot),
        7 => Some(Name::Step),
        8 => Some(Name::Cut),
        9 => Some(Name::Post),
        10 => Some(Name::Burst),
        11 => Some(Name::Run),
        12 => Some(Name::LinesCheck),
        13 => Some(Name::Raise),
        14 => Some(Name::SetProgram),
        15 => Some(Name::SetStore),
        16 => Some(Name::ProgramLength),
        17 => Some(Name::StoreLength),
        18 => Some(Name::SetDevice),
        19 => Some(Name::SetTotals),
        20 => Some(Name::Keep),
        21 => Some(Name::Restore),
        22.. => None,
    }
}

// A call's line by the number of its name; where no name has it, neither call nor answer is shown.
pub fn call_line(
    text: &mut [u8],
    at: usize,
    tabs: bool,
    number: u64,
    kind: u64,
    first: u64,
    second: u64,
    steps: u32,
    answer: &[u16; 6],
    store: &[u16],
) -> usize
    requires { at + 512 ≤ length text.old }
    ensures puts { Puts text.old at text.new result
        (call_line tabs number kind first second steps answer.now store.now) }
    ensures upper_bound { result ≤ at + 512 }
{
    match name_of(kind) {
        Some(name) => named_call_line(
            text, at, tabs, number, name, first, second, steps, answer, store,
        ),
        None => line(text, at, tabs, number, b"", b"", store, answer[5]),
    }
}

// What is told of a mistake.
#[tactic(auto, unfolding(crate::specs::Trace::wrong_texts))]
fn wrong_text(mistake: Mistake) -> &'static [u8]
    ensures text { result.now ≡ get_or wrong_texts (number_of_mistake mistake - 1) [] }
    ensures length_bound { length result.now ≤ 28 }
{
    match mistake {
        Mistake::NameUnknown => b"no call has this name",
        Mistake::NumberMany => b"one number too many",
        Mistake::NumberForm => b"a number has only digits",
        Mistake::NumberLarge => b"a number is too large",
        Mistake::NumberMissing => b"a number is missing",
        Mistake::HeadingLate => b"this stands before the calls",
    }
}

// What is told of the mistake with this number, 0 as of the first; nothing behind the last.
#[tactic(auto, unfolding(crate::specs::Trace::wrong_texts))]
fn numbered_wrong_text(wrong: u64) -> &'static [u8]
    ensures text { result.now ≡ get_or wrong_texts (wrong - 1) [] }
    ensures length_bound { length result.now ≤ 28 }
{
    match wrong {
        0 | 1 => wrong_text(Mistake::NameUnknown),
        2 => wrong_text(Mistake::NumberMany),
        3 => wrong_text(Mistake::NumberForm),
        4 => wrong_text(Mistake::NumberLarge),
        5 => wrong_text(Mistake::NumberMissing),
        6 => wrong_text(Mistake::HeadingLate),
        7.. => b"",
    }
}

// The line of what can't be read.
#[tactic(auto, unfolding(crate::specs::Trace::unread_line))]
pub fn mistake_line(text: &mut [u8], at: usize, tabs: bool, number: u64, mistake: Mistake) -> usize
    requires { at + 512 ≤ length text.old }
    ensures puts { Puts text.old at text.new result
        (unread_line tabs number (number_of_mistake mistake)) }
    ensures upper_bound { result ≤ at + 512 }
{
    line(
        text,
        at,
        tabs,
        number,
        b"unread",
        wrong_text(mistake),
        &[],
        NOTHING,
    )
}

// The same by the mistake's number; no words where no mistake has it.
#[tactic(auto, unfolding(crate::specs::Trace::unread_line))]
pub fn unread_line(text: &mut [u8], at: usize, tabs: bool, number: u64, wrong: u64) -> usize
    requires { at + 512 ≤ length text.old }
    ensures puts { Puts text.old at text.new result (unread_line tabs number wrong) }
    ensures upper_bound { result ≤ at + 512 }
{
    line(
        text,
        at,
        tabs,
        number,
        b"unread",
        numbered_wrong_text(wrong),
        &[],
        NOTHING,
    )
}
