// The sheet's lines, each put at a place of the text; a function answers where what it put ends.
ghost use Rattle.std.specs.Prelude.{◌+◌, ◌*◌, ◌≤◌, length, []};
ghost use Rattle.sheet.specs.Sheet.{memory_line, unread_line, refused_line, dropped_line, answer_line, if_checked};
ghost use Rattle.model.specs.Answer.{refusal};
ghost use Rattle.text.specs.Puts.{Puts};

use model::{Answer, Refusal};
use text::hex::hex_words;
use text::{decimal, put, spaced};

// A cut: "the call's number in decimal and the words"
#[tactic(auto, using(text::proofs::TextLaws::puts), unfolding(crate::specs::Sheet::memory_line))]
pub fn memory_line(text: &mut [u8], at: usize, number: u64, memory: &[u16]) -> usize
    requires { at + 21 + 5 * length memory.now ≤ length text.old }
    ensures puts { Puts text.old at text.new result (memory_line number memory.now) }
    ensures upper_bound { result ≤ at + 21 + 5 * length memory.now }
{
    let from = decimal(text, at, number);
    let end = hex_words(text, from, memory);
    put(text, end, b"\n")
}

#[tactic(auto, using(text::proofs::TextLaws::puts), unfolding(crate::specs::Sheet::unread_line))]
pub fn unread_line(text: &mut [u8], at: usize, number: u64) -> usize
    requires { at + 28 ≤ length text.old }
    ensures puts { Puts text.old at text.new result (unread_line number) }
    ensures upper_bound { result ≤ at + 28 }
{
    let end = decimal(text, at, number);
    put(text, end, b" unread\n")
}

// A refusal's number and its two place words are the last three of its five.
#[tactic(auto, using(text::proofs::TextLaws::puts), unfolding(crate::specs::Sheet::refused_line, words::specs::Words::checked_words, words::specs::Words::refused_words))]
fn refused_line(text: &mut [u8], at: usize, number: u64, refused: Refusal) -> usize
    requires { at + 92 ≤ length text.old }
    ensures puts { Puts text.old at text.new result (refused_line number (refusal refused)) }
    ensures upper_bound { result ≤ at + 92 }
{
    let mut told = [0u16; 5];
    words::write_checked(&mut told, Err(refused));
    let end = decimal(text, at, number);
    let end = put(text, end, b" refused");
    let end = spaced(text, end, told[2]);
    let end = spaced(text, end, told[3]);
    let end = spaced(text, end, told[4]);
    put(text, end, b"\n")
}

// The line of a step that accepts a record for which another was dropped, with the dropped one's event and data.
#[tactic(auto, using(text::proofs::TextLaws::puts), unfolding(crate::specs::Sheet::dropped_line))]
fn dropped_line(text: &mut [u8], at: usize, number: u64, event: u16, datum: u16) -> usize
    requires { at + 92 ≤ length text.old }
    ensures puts { Puts text.old at text.new result (dropped_line number event datum) }
    ensures upper_bound { result ≤ at + 92 }
{
    let end = decimal(text, at, number);
    let end = put(text, end, b" dropped");
    let end = spaced(text, end, event);
    let end = spaced(text, end, datum);
    put(text, end, b"\n")
}

// The line of a call that is no cut: none, unless it is refused or tells a dropped record.
#[tactic(auto, using(text::proofs::TextLaws::puts), unfolding(crate::specs::Sheet::answer_line))]
pub fn answer_line(text: &mut [u8], at: usize, number: u64, answer: Answer) -> usize
    requires { at + 92 ≤ length text.old }
    ensures puts { Puts text.old at text.new result (answer_line number answer) }
    ensures upper_bound { result ≤ at + 92 }
{
    match answer {
        Answer::Refused(refused) => refused_line(text, at, number, refused),
        Answer::Accepted(Some(dropped)) => {
            dropped_line(text, at, number, dropped.event, dropped.datum)
        }
        _ => at,
    }
}

// The line of the check, with call 0.
#[tactic(auto, using(text::proofs::TextLaws::puts), unfolding(crate::specs::Sheet::if_checked))]
pub fn check_line(text: &mut [u8], at: usize, checked: Result<(), Refusal>) -> usize
    requires { at + 92 ≤ length text.old }
    ensures puts { Puts text.old at text.new result (if_checked checked []) }
    ensures upper_bound { result ≤ at + 92 }
{
    match checked {
        Ok(()) => at,
        Err(refused) => refused_line(text, at, 0, refused),
    }
}
