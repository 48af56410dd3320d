// A list of calls, read byte by byte: a line's name and the numbers behind it, or what is wrong in it. What a line does is for others to say.

#![tactic(auto)]

ghost use Rattle.std.specs.Prelude.{ℕ, length, true, List, ◌≡◌};
ghost use Rattle.model.specs.Program.{word};
ghost use Rattle.script.specs.Script.{blank, many, next as next_of, last as last_of};
ghost use Rattle.script.specs.Reads.{numbers_of, line_in, Sized, Holds};

mod line;
mod names;
mod numbers;

pub use names::Name;

// What is wrong in a line, in the order of the page's table.
#[derive(Clone, Copy, PartialEq, Eq, Debug)]
pub enum Mistake {
    NameUnknown,
    NumberMany,
    NumberForm,
    NumberLarge,
    NumberMissing,
    HeadingLate,
}

// A line as far as it is read: what is wrong in it, 0 for nothing; whether it is a comment; the first bytes of its name, and the name's number once
// it has ended, 0 before; how many numbers have ended, and those that may be larger than a word; whether a number is being read, and its value so far.
// Numbers, and a flag beside a value: the functions below take any of them, not only what they leave.
// The name's bytes stand in an array with their count beside it, since nothing is allocated here.
#[derive(Clone, Copy)]
pub struct Reading {
    pub wrong: u64,
    pub comment: bool,
    pub name: [u8; 16],
    pub held: usize,
    pub kind: u64,
    pub count: usize,
    pub wide: [u64; 3],
    pub begun: bool,
    pub value: u64,
}

// Whether a reading is one that this library can have left.
pub fn is_sized(reading: Reading, words: &[u16]) -> bool
    ensures sized { result ≡ true → Sized reading (length words.now) }
    ensures value { Sized reading (length words.now) → result ≡ true }
{
    if words.len() != numbers::MANY {
        return false;
    }
    if reading.held > 16 {
        return false;
    }
    if reading.kind > 21 {
        return false;
    }
    let kind = names::name_of(reading.kind);
    if reading.value > numbers::largest(kind, reading.count) {
        return false;
    }
    let wide = reading.wide;
    if !numbers::are_small(kind, reading.count, wide) {
        return false;
    }
    let most = numbers::most(kind);
    if reading.begun {
        return reading.count < most;
    }
    reading.count <= most
}

// A line of which nothing is read yet.
pub fn start() -> Reading
    ensures { (words : List ℕ) → length words ≡ many → Holds blank result words }
{
    Reading {
        wrong: 0,
        comment: false,
        name: [0; 16],
        held: 0,
        kind: 0,
        count: 0,
        wide: [0; 3],
        begun: false,
        value: 0,
    }
}

// A byte of the line. Nothing is read in a comment or behind what is wrong.
pub fn next(reading: Reading, words: &mut [u16], byte: u8) -> Reading
    requires { Sized reading (length words.old) }
    ensures { Holds (next_of (line_in reading words.old) byte) result words.new }
{
    if reading.comment {
        return reading;
    }
    if reading.wrong != 0 {
        return reading;
    }
    line::read_byte(reading, words, byte)
}

// The end of the line.
pub fn last(reading: Reading, words: &mut [u16]) -> Reading
    requires { Sized reading (length words.old) }
    ensures { Holds (last_of (line_in reading words.old)) result words.new }
{
    if reading.comment {
        return reading;
    }
    if reading.wrong != 0 {
        return reading;
    }
    line::complete(line::ended(reading, words))
}

// Number i of the line, 0 where there is none.
pub fn number_at(reading: Reading, words: &[u16], i: usize) -> u64
    requires { Sized reading (length words.now) }
    ensures { result ≡ word (numbers_of reading words.now) i }
{
    if i >= reading.count {
        return 0;
    }
    if numbers::is_wide(names::name_of(reading.kind)) {
        let wide = reading.wide;
        return wide[i];
    }
    words[i] as u64
}
