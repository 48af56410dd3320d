// A mistake in words.

#![tactic(auto)]

ghost use Rattle.std.specs.Prelude.{◌+◌, ◌≤◌, ◌≡◌, ◌++◌, length, get_or, [], Some};
ghost use Rattle.text.specs.Ascii.{ascii};
ghost use Rattle.text.specs.Puts.{Puts};
ghost use Rattle.text.specs.Text.{decimal as decimal_of};
ghost use Rattle.assembly.specs.Mistakes.{kind_number, mistake_at};
ghost use Rattle.tokens.specs.Tokens.{wrong_number};
ghost use Rattle.mistakes.specs.Told.{mistake_texts, other_number, told};

use assembly::{Mistake, MistakeKind};
use text::{decimal, put};
use tokens::Wrong;

// What a mistake is, in words, where it isn't one of reading.
#[tactic(auto, unfolding(crate::specs::Told::mistake_texts))]
fn other_words(kind: MistakeKind) -> &'static [u8]
    ensures value { result.now ≡ get_or mistake_texts (other_number kind) [] }
    ensures upper_bound { length result.now ≤ 60 }
{
    match kind {
        MistakeKind::Reading(_) | MistakeKind::Unknown(_) => b"",
        MistakeKind::NoStatement => b"no statement begins so",
        MistakeKind::WordCount => b"this statement has another number of words",
        MistakeKind::NameDue => b"a name is due here",
        MistakeKind::NumberDue => b"a number is due here",
        MistakeKind::LabelPlace => b"a label stands in a body, alone or before an instruction",
        MistakeKind::LabelTaken => b"this label is taken",
        MistakeKind::InstructionPlace => b"an instruction stands in a body",
        MistakeKind::TaskPlace => b"tasks stand before events",
        MistakeKind::NameTaken => b"this name is taken",
        MistakeKind::GivenAbove => b"this is given above",
        MistakeKind::NoTask => b"no task has this name",
        MistakeKind::NoLabel => b"no instruction of this body has this label",
        MistakeKind::NoTransaction => b"no transaction has this name",
        MistakeKind::NoMemory => b"memory isn't given",
        MistakeKind::NoEntry => b"entry isn't given",
        MistakeKind::ProgramLong => b"a program has at most 65535 words",
        MistakeKind::TaskCount => b"a program has 1 to 32 tasks",
        MistakeKind::EventCount => b"a program has at most 16 events",
        MistakeKind::MemorySize => b"memory has 1 to 1024 words",
        MistakeKind::NoTaskNumber => b"no task has this number",
        MistakeKind::BodySize => b"a body has 1 to 256 instructions",
        MistakeKind::TransactionLarge => b"a transaction's number is at most 255",
        MistakeKind::RegisterLarge => b"a register is 0 to 7",
        MistakeKind::ShiftLarge => b"SHR shifts by 0 to 15",
        MistakeKind::AddressLarge => b"the address isn't below the number of memory words",
        MistakeKind::TargetLarge => b"the target isn't an instruction of this body",
        MistakeKind::GoPlace => b"GO stands only in tasks",
        MistakeKind::DonePlace => b"DONE stands only in events",
        MistakeKind::BodyEnd => b"a body ends with JUMP, GO or DONE",
        MistakeKind::TextLong => b"a text has at most 1048576 bytes and 65536 lines",
    }
}

// What the mistake with this number is, in words, where it isn't one of reading; nothing where no mistake has it.
#[tactic(auto, unfolding(crate::specs::Told::mistake_texts))]
fn numbered_other_words(number: u64) -> &'static [u8]
    requires { 7 ≤ number }
    ensures value { result.now ≡ get_or mistake_texts number [] }
    ensures upper_bound { length result.now ≤ 60 }
{
    match number {
        7 => other_words(MistakeKind::NoStatement),
        8 => other_words(MistakeKind::WordCount),
        9 => other_words(MistakeKind::NameDue),
        10 => other_words(MistakeKind::NumberDue),
        11 => other_words(MistakeKind::LabelPlace),
        12 => other_words(MistakeKind::LabelTaken),
        13 => other_words(MistakeKind::InstructionPlace),
        14 => other_words(MistakeKind::TaskPlace),
        15 => other_words(MistakeKind::NameTaken),
        16 => other_words(MistakeKind::GivenAbove),
        17 => other_words(MistakeKind::NoTask),
        18 => other_words(MistakeKind::NoLabel),
        19 => other_words(MistakeKind::NoTransaction),
        20 => other_words(MistakeKind::NoMemory),
        21 => other_words(MistakeKind::NoEntry),
        22 => other_words(MistakeKind::ProgramLong),
        23 => other_words(MistakeKind::TaskCount),
        24 => other_words(MistakeKind::EventCount),
        25 => other_words(MistakeKind::MemorySize),
        26 => other_words(MistakeKind::NoTaskNumber),
        27 => other_words(MistakeKind::BodySize),
        28 => other_words(MistakeKind::TransactionLarge),
        29 => other_words(MistakeKind::RegisterLarge),
        30 => other_words(MistakeKind::ShiftLarge),
        31 => other_words(MistakeKind::AddressLarge),
        32 => other_words(MistakeKind::TargetLarge),
        33 => other_words(MistakeKind::GoPlace),
        34 => other_words(MistakeKind::DonePlace),
        35 => other_words(MistakeKind::BodyEnd),
        36 => other_words(MistakeKind::TextLong),
        _ => b"",
    }
}

// What the mistake whose number is so far past 7 is, in words; nothing where no mistake has it.
#[tactic(auto, using(crate::proofs::ToldLaws::no_words))]
fn unknown_words(past: u64) -> &'static [u8]
    ensures value { result.now ≡ get_or mistake_texts (7 + past) [] }
    ensures upper_bound { length result.now ≤ 60 }
{
    match past.checked_add(7) {
        Some(number) => numbered_other_words(number),
        None => b"",
    }
}

// What is wrong in a line as it is read, in words.
#[tactic(auto, unfolding(crate::specs::Told::mistake_texts))]
fn reading_words(wrong: Wrong) -> &'static [u8]
    ensures value { result.now ≡ get_or mistake_texts (wrong_number (Some wrong)) [] }
    ensures upper_bound { length result.now ≤ 60 }
{
    match wrong {
        Wrong::Character => b"this character can't stand here",
        Wrong::NumberLarge => b"a number is at most 65535",
        Wrong::NumberForm => b"a number is decimal digits, or 0x and hex digits",
        Wrong::NameLong => b"a name has at most 12 characters",
        Wrong::WordsMany => b"a line has at most four words behind its label",
        Wrong::Colon => b"a colon stands behind the line's first word, a name",
    }
}

// What a mistake is, in words.
#[tactic(auto)]
fn words(kind: MistakeKind) -> &'static [u8]
    ensures value { result.now ≡ get_or mistake_texts (kind_number kind) [] }
    ensures upper_bound { length result.now ≤ 60 }
{
    match kind {
        MistakeKind::Reading(wrong) => reading_words(wrong),
        MistakeKind::Unknown(past) => unknown_words(past),
        _ => other_words(kind),
    }
}

// What the mistake with this number is, in words; nothing where no mistake has it.
#[tactic(auto, unfolding(crate::specs::Told::mistake_texts))]
fn numbered_words(number: u64) -> &'static [u8]
    ensures value { result.now ≡ get_or mistake_texts number [] }
    ensures upper_bound { length result.now ≤ 60 }
{
    match number {
        0 => b"",
        1 => reading_words(Wrong::Character),
        2 => reading_words(Wrong::NumberLarge),
        3 => reading_words(Wrong::NumberForm),
        4 => reading_words(Wrong::NameLong),
        5 => reading_words(Wrong::WordsMany),
        6 => reading_words(Wrong::Colon),
        7.. => numbered_other_words(number),
    }
}

// A line and words about it, and where they end.
#[tactic(auto, using(crate::proofs::ToldLaws::putting))]
fn put_words(text: &mut [u8], line: usize, words: &[u8]) -> usize
    requires { (128 ≤ length text.old) × (length words.now ≤ 60) }
    ensures { Puts text.old 0 text.new result
        (ascii "line " ++ decimal_of line ++ ascii ": " ++ words.now ++ ascii "\n") }
{
    let end = put(text, 0, b"line ");
    let end = decimal(text, end, line as u64);
    let end = put(text, end, b": ");
    let end = put(text, end, words);
    put(text, end, b"\n")
}

// A mistake with its line, and where it ends.
#[tactic(auto, unfolding(crate::specs::Told::told))]
pub fn put_kind(text: &mut [u8], mistake: Mistake) -> usize
    requires { 128 ≤ length text.old }
    ensures { Puts text.old 0 text.new result (told (mistake_at mistake.line (kind_number mistake.kind))) }
{
    put_words(text, mistake.line, words(mistake.kind))
}

// A mistake by its number, with its line, and where it ends; a number that no mistake has is told without words.
#[tactic(auto, unfolding(crate::specs::Told::told))]
pub fn put_mistake(text: &mut [u8], line: usize, number: u64) -> usize
    requires { 128 ≤ length text.old }
    ensures { Puts text.old 0 text.new result (told (mistake_at line number)) }
{
    put_words(text, line, numbered_words(number))
}
