// A line, byte by byte: its name, then its numbers.
ghost use Rattle.std.specs.Prelude.{◌<◌, length, true, ◌≡◌};
ghost use Rattle.script.specs.Script.{many, most_numbers, is_space, mistaken as mistaken_line, name_ended, number_ended, ended as ended_of, begins_comment, name_byte, sized, digit_byte, number_byte, read_byte, complete as complete_line};
ghost use Rattle.script.specs.Reads.{line_in, number_of_mistake, Sized, Holds, Becomes};

use crate::{Mistake, Reading, names, numbers};
use text::hex::digit;

#[tactic(auto, using(model::proofs::TestLaws::tests), unfolding(crate::specs::Script::is_space, model::specs::Test::either))]
fn is_space(byte: u8) -> bool
    ensures { result ≡ is_space byte }
{
    matches!(byte, b' ' | b'\t' | b'\r')
}

// A mistake's number, by the page's table.
fn number_of_mistake(mistake: Mistake) -> u64
    ensures { result ≡ number_of_mistake mistake }
{
    match mistake {
        Mistake::NameUnknown => 1,
        Mistake::NumberMany => 2,
        Mistake::NumberForm => 3,
        Mistake::NumberLarge => 4,
        Mistake::NumberMissing => 5,
        Mistake::HeadingLate => 6,
    }
}

fn mistaken(reading: Reading, mistake: Mistake) -> Reading
    ensures { Becomes (λ l. mistaken_line l (number_of_mistake mistake)) reading result }
{
    Reading {
        wrong: number_of_mistake(mistake),
        ..reading
    }
}

// Where the name ends.
fn name_ended(reading: Reading) -> Reading
    requires { Sized reading many }
    ensures { Becomes name_ended reading result }
{
    let bytes = reading.name;
    let held = reading.held;
    match names::named(&bytes[..held]) {
        None => mistaken(reading, Mistake::NameUnknown),
        Some(name) => Reading {
            kind: names::number_of(name),
            count: 0,
            begun: false,
            value: 0,
            ..reading
        },
    }
}

// Where a number ends.
fn number_ended(reading: Reading, words: &mut [u16]) -> Reading
    requires sized { Sized reading (length words.old) }
    requires begun_value { reading.begun ≡ true }
    ensures { Holds (number_ended (line_in reading words.old)) result words.new }
{
    let count = reading.count;
    let value = reading.value;
    let ended = Reading {
        count: count + 1,
        begun: false,
        value: 0,
        ..reading
    };
    if numbers::is_wide(names::name_of(reading.kind)) {
        let mut wide = reading.wide;
        wide[count] = value;
        return Reading { wide, ..ended };
    }
    words[count] = value as u16;
    ended
}

// Where a word ends, if there is one.
pub fn ended(reading: Reading, words: &mut [u16]) -> Reading
    requires { Sized reading (length words.old) }
    ensures { Holds (ended_of (line_in reading words.old)) result words.new }
{
    if reading.kind == 0 {
        if reading.held == 0 {
            return reading;
        }
        return name_ended(reading);
    }
    if reading.begun {
        return number_ended(reading, words);
    }
    reading
}

#[tactic(auto, using(model::proofs::TestLaws::tests), unfolding(crate::specs::Script::begins_comment, model::specs::Test::both))]
fn begins_comment(held: usize, byte: u8) -> bool
    ensures { result ≡ begins_comment held byte }
{
    held == 0 && byte == b'#'
}

// A byte of the name.
fn name_byte(reading: Reading, byte: u8) -> Reading
    requires { Sized reading many }
    ensures { Becomes (λ l. name_byte l byte) reading result }
{
    let held = reading.held;
    if begins_comment(held, byte) {
        return Reading {
            comment: true,
            ..reading
        };
    }
    if held >= 16 {
        return reading;
    }
    let mut name = reading.name;
    name[held] = byte;
    Reading {
        name,
        held: held + 1,
        ..reading
    }
}

// A number becomes larger.
fn larger(reading: Reading, value: u64) -> Reading
    requires { reading.count < most_numbers reading.kind }
    ensures { Becomes (λ l. sized l value) reading result }
{
    if value > numbers::largest(names::name_of(reading.kind), reading.count) {
        return mistaken(reading, Mistake::NumberLarge);
    }
    Reading {
        begun: true,
        value,
        ..reading
    }
}

// A digit of a number.
fn digit_byte(reading: Reading, byte: u8) -> Reading
    requires sized { Sized reading many }
    requires count_bound { reading.count < most_numbers reading.kind }
    ensures { Becomes (λ l. digit_byte l byte) reading result }
{
    let base = numbers::base(names::name_of(reading.kind));
    let digit = digit(byte) as u64;
    if digit >= base {
        return mistaken(reading, Mistake::NumberForm);
    }
    larger(reading, base * reading.value + digit)
}

// A byte of a number. One that has begun isn't one too many.
fn number_byte(reading: Reading, byte: u8) -> Reading
    requires { Sized reading many }
    ensures { Becomes (λ l. number_byte l byte) reading result }
{
    if reading.count >= numbers::most(names::name_of(reading.kind)) {
        return mistaken(reading, Mistake::NumberMany);
    }
    digit_byte(reading, byte)
}

pub fn read_byte(reading: Reading, words: &mut [u16], byte: u8) -> Reading
    requires { Sized reading (length words.old) }
    ensures { Holds (read_byte (line_in reading words.old) byte) result words.new }
{
    if is_space(byte) {
        return ended(reading, words);
    }
    if reading.kind == 0 {
        return name_byte(reading, byte);
    }
    number_byte(reading, byte)
}

// Whether a number is missing.
pub fn complete(reading: Reading) -> Reading
    ensures { Becomes complete_line reading result }
{
    if reading.count >= numbers::least(names::name_of(reading.kind)) {
        return reading;
    }
    if reading.wrong != 0 {
        return reading;
    }
    mistaken(reading, Mistake::NumberMissing)
}
