// The lines of a text: what is wrong in each, its label, its statement and the words behind that.

#![tactic(auto)]

ghost use Rattle.std.specs.Prelude.{ℕ, ◌+◌, ◌*◌, ◌<◌, ◌≤◌, Some, eqb, length, take, ◌++◌, ◌≡◌};
ghost use Rattle.tokens.specs.Tokens.{start as start_of, numbers as numbers_of, line_feed, line_count, all_numbers};
ghost use Rattle.tokens.specs.Reads.{Small, AllKnown, KnownSoFar, Takes, Reads};
ghost use Rattle.model.specs.Test.{pick};

pub mod line;
pub mod statements;
pub mod uses;

// What the word is that is being read: none; a number's first 0; a decimal number; a hex number, of which only 0x is there; one with digits; a name.
#[derive(Clone, Copy)]
pub enum Kind {
    Nothing,
    Zero,
    Decimal,
    HexMark,
    Hex,
    Name,
}

// What is wrong in a line.
#[derive(Clone, Copy)]
pub enum Wrong {
    Character,
    NumberLarge,
    NumberForm,
    NameLong,
    WordsMany,
    Colon,
}

// A line: the number of what is wrong in it, its label, the number of its statement and the words behind that, 0 where there is none.
#[derive(Clone, Copy)]
pub struct SourceLine {
    pub wrong: u64,
    pub label: u64,
    pub statement: u64,
    pub first: u64,
    pub second: u64,
    pub third: u64,
}

impl SourceLine {
    // A line with nothing in it.
    pub const BLANK: SourceLine = SourceLine {
        wrong: 0,
        label: 0,
        statement: 0,
        first: 0,
        second: 0,
        third: 0,
    };
}

// A line, as far as it is read. What is wrong in it is a number, 0 for nothing: `line::next` and `line::last` take any, and write those of `Wrong`.
#[derive(Clone, Copy)]
pub struct Reading {
    pub wrong: u64,
    pub label: u64,
    pub first: u64,
    pub second: u64,
    pub third: u64,
    pub fourth: u64,
    pub kind: Kind,
    pub value: u64,
    pub comment: bool,
}

#[tactic(auto, unfolding(crate::specs::Tokens::start))]
fn start() -> Reading
    ensures value { result ≡ start_of }
    ensures small_value { Small result }
{
    Reading {
        wrong: 0,
        label: 0,
        first: 0,
        second: 0,
        third: 0,
        fourth: 0,
        kind: Kind::Nothing,
        value: 0,
        comment: false,
    }
}

// A line at a place of the room.
fn write(room: &mut [SourceLine], at: usize, reading: Reading)
    requires { at < length room.old }
    ensures { all_numbers (take (at + 1) room.new) ≡ all_numbers (take at room.old) ++ numbers_of reading }
{
    room[at] = SourceLine {
        wrong: reading.wrong,
        label: reading.label,
        statement: statements::statement(reading.first),
        first: reading.second,
        second: reading.third,
        third: reading.fourth,
    };
}

// A line feed ends one line more.
#[tactic(auto, using(model::proofs::TestLaws::tests), unfolding(model::specs::Test::pick))]
fn feed(byte: u8) -> usize
    ensures value { result ≡ pick (eqb byte line_feed) 1 0 }
    ensures upper_bound { result ≤ 1 }
{
    if byte == b'\n' { 1 } else { 0 }
}

// How many lines the text has.
#[tactic(auto, using(crate::proofs::LineLaws::counting))]
fn count(text: &[u8]) -> usize
    ensures { result ≡ line_count text.now }
{
    let mut lines = 1;
    for &byte in text {
        lines += feed(byte);
    }
    lines
}

// How many lines are in the room, and the line that is being read.
#[derive(Clone, Copy)]
pub struct Progress {
    pub done: usize,
    pub reading: Reading,
}

// A byte of the text.
fn take(room: &mut [SourceLine], byte: u8, progress: Progress) -> Progress
    requires room_left { progress.done < length room.old }
    requires small_value { Small progress.reading }
    ensures lines { Takes byte room.old progress room.new result }
    ensures known { KnownSoFar room.old progress → KnownSoFar room.new result }
{
    let done = progress.done;
    let reading = progress.reading;
    if byte == b'\n' {
        write(room, done, line::last(reading));
        return Progress {
            done: done + 1,
            reading: start(),
        };
    }
    Progress {
        done,
        reading: line::next(reading, byte),
    }
}

// The lines of a text, and how many they are; none where there isn't room for them.
pub fn read(text: &[u8], room: &mut [SourceLine]) -> Option<usize>
    ensures text { Reads text.now room.new result }
    ensures known { (n : ℕ) → result ≡ Some n → AllKnown (take n room.new) }
{
    let lines = count(text);
    if lines > room.len() {
        return None;
    }
    let mut progress = Progress {
        done: 0,
        reading: start(),
    };
    for &byte in text {
        progress = take(room, byte, progress);
    }
    write(room, progress.done, line::last(progress.reading));
    Some(lines)
}

#[cfg(test)]
mod tests {
    use super::*;

    #[test]
    fn reads_what_is_wrong(rt: HostRuntime) {
        let mut room = [SourceLine::BLANK; 3];
        assert_eq!(rt;
            read(b"here: SET 1 2\n2: SET\nSET 65536 @", &mut room),
            Some(3)
        );
        assert_eq!(rt; room[0].wrong, 0);
        assert_eq!(rt;
            room[1].wrong,
            6,
            "a colon stands behind the line's first word, a name"
        );
        assert_eq!(rt;
            room[2].wrong,
            2,
            "a number is at most 65535, not the character behind it"
        );
    }
}
