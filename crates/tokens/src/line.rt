// A line, byte by byte: the words so far, and the word that is being read.
ghost use Rattle.std.specs.Prelude.{◌≡◌, ◌<◌, ◌≤◌, ◌^◌, Some};
ghost use Rattle.tokens.specs.Tokens.{wrong_number, character as character_of, is_space, mistaken as mistaken_of, with_word as with_word_of, with_words as with_words_of, in_comment as in_comment_of, digit as digit_of, begun as begun_of, after_zero as after_zero_of, longer as longer_of, goes_on as goes_on_of, added as added_of, ended as ended_of, labelled as labelled_of, if_right, read_byte as read_byte_of, next as next_of, last as last_of};
ghost use Rattle.tokens.specs.Reads.{Small};
ghost use Rattle.tokens.specs.declared.Kind.{Kind};

use crate::{Kind, Reading, Wrong};

// The least value of a name of 12 characters: 38 to the 11.
const TWELVE: u64 = 238572050223552512;

// The number of a letter, digit or underscore in a name; 0 of any other byte.
#[tactic(auto, using(model::proofs::TestLaws::tests), unfolding(crate::specs::Tokens::character, model::specs::Test::pick, model::specs::Test::both))]
pub fn character(byte: u8) -> u64
    ensures value { result ≡ character_of byte }
    ensures upper_bound { result < 38 }
{
    match byte {
        b'0'..=b'9' => (byte - b'0') as u64 + 1,
        b'A'..=b'Z' => (byte - b'A') as u64 + 11,
        b'a'..=b'z' => (byte - b'a') as u64 + 11,
        b'_' => 37,
        _ => 0,
    }
}

#[tactic(auto, using(model::proofs::TestLaws::tests), unfolding(crate::specs::Tokens::is_space, model::specs::Test::either))]
fn is_space(byte: u8) -> bool
    ensures { result ≡ is_space byte }
{
    matches!(byte, b' ' | b'\t' | b'\r' | b',')
}

// The number of what is wrong.
#[tactic(auto, unfolding(crate::specs::Tokens::wrong_number))]
fn number(wrong: Wrong) -> u64
    ensures { result ≡ wrong_number (Some wrong) }
{
    match wrong {
        Wrong::Character => 1,
        Wrong::NumberLarge => 2,
        Wrong::NumberForm => 3,
        Wrong::NameLong => 4,
        Wrong::WordsMany => 5,
        Wrong::Colon => 6,
    }
}

#[tactic(auto, unfolding(crate::specs::Tokens::mistaken))]
fn mistaken(reading: Reading, wrong: Wrong) -> Reading
    requires { Small reading }
    ensures value { result ≡ mistaken_of reading wrong }
    ensures small_value { Small result }
{
    Reading {
        wrong: number(wrong),
        ..reading
    }
}

#[tactic(auto, unfolding(crate::specs::Tokens::with_word))]
fn with_word(reading: Reading, kind: Kind, value: u64) -> Reading
    requires { value < 38 ^ 12 }
    ensures value { result ≡ with_word_of reading kind value }
    ensures small_value { Small result }
{
    Reading {
        kind,
        value,
        ..reading
    }
}

// Label and words, with no word being read.
#[tactic(auto, unfolding(crate::specs::Tokens::with_words))]
fn with_words(
    reading: Reading,
    label: u64,
    first: u64,
    second: u64,
    third: u64,
    fourth: u64,
) -> Reading
    ensures value { result ≡ with_words_of reading label first second third fourth }
    ensures small_value { Small result }
{
    Reading {
        label,
        first,
        second,
        third,
        fourth,
        kind: Kind::Nothing,
        value: 0,
        ..reading
    }
}

#[tactic(auto, unfolding(crate::specs::Tokens::in_comment))]
fn in_comment(reading: Reading) -> Reading
    requires { Small reading }
    ensures value { result ≡ in_comment_of reading }
    ensures small_value { Small result }
{
    Reading {
        comment: true,
        ..reading
    }
}

// A digit of a number of the base, 10 or 16.
#[tactic(auto, using(model::proofs::TestLaws::tests), unfolding(crate::specs::Tokens::digit, crate::specs::Tokens::sized, model::specs::Test::pick))]
fn digit(reading: Reading, kind: Kind, base: u64, character: u64) -> Reading
    requires small_value { Small reading }
    requires base_bound { base ≤ 16 }
    requires is_character { 1 ≤ character }
    ensures value { result ≡ digit_of reading kind base character }
    ensures small_value { Small result }
{
    if character > base {
        return mistaken(reading, Wrong::NumberForm);
    }
    if reading.value > 65535 {
        return mistaken(reading, Wrong::NumberLarge);
    }
    let value = base * reading.value + (character - 1);
    if value > 65535 {
        return mistaken(reading, Wrong::NumberLarge);
    }
    with_word(reading, kind, value)
}

// The first character of a word.
#[tactic(auto, using(model::proofs::TestLaws::tests), unfolding(crate::specs::Tokens::begun, model::specs::Test::pick))]
fn begun(reading: Reading, character: u64) -> Reading
    requires { (1 ≤ character) × (character < 38) }
    ensures value { result ≡ begun_of reading character }
    ensures small_value { Small result }
{
    if character == 1 {
        return with_word(reading, Kind::Zero, 0);
    }
    if character <= 10 {
        return with_word(reading, Kind::Decimal, character - 1);
    }
    with_word(reading, Kind::Name, character)
}

// What follows a first 0: x, or a digit.
#[tactic(auto, using(model::proofs::TestLaws::tests), unfolding(crate::specs::Tokens::after_zero, model::specs::Test::pick))]
fn after_zero(reading: Reading, character: u64) -> Reading
    requires small_value { Small reading }
    requires is_character { 1 ≤ character }
    ensures value { result ≡ after_zero_of reading character }
    ensures small_value { Small result }
{
    if character == 34 {
        return with_word(reading, Kind::HexMark, 0);
    }
    digit(reading, Kind::Decimal, 10, character)
}

// A character more of a name.
#[tactic(auto, using(model::proofs::TestLaws::tests), unfolding(crate::specs::Tokens::longer, model::specs::Test::pick))]
fn longer(reading: Reading, character: u64) -> Reading
    requires small_value { Small reading }
    requires is_character { character < 38 }
    ensures value { result ≡ longer_of reading character }
    ensures small_value { Small result }
{
    if reading.value >= TWELVE {
        return mistaken(reading, Wrong::NameLong);
    }
    with_word(reading, Kind::Name, 38 * reading.value + character)
}

#[tactic(auto, unfolding(crate::specs::Tokens::goes_on))]
fn goes_on(reading: Reading, character: u64) -> Reading
    requires small_value { Small reading }
    requires is_character { (1 ≤ character) × (character < 38) }
    ensures value { result ≡ goes_on_of reading.kind reading character }
    ensures small_value { Small result }
{
    match reading.kind {
        Kind::Nothing => begun(reading, character),
        Kind::Zero => after_zero(reading, character),
        Kind::Decimal => digit(reading, Kind::Decimal, 10, character),
        Kind::HexMark | Kind::Hex => digit(reading, Kind::Hex, 16, character),
        Kind::Name => longer(reading, character),
    }
}

// A word more.
#[tactic(auto, using(model::proofs::TestLaws::tests), unfolding(crate::specs::Tokens::added, model::specs::Test::pick))]
fn added(reading: Reading, word: u64) -> Reading
    requires { Small reading }
    ensures value { result ≡ added_of reading word }
    ensures small_value { Small result }
{
    let label = reading.label;
    let first = reading.first;
    let second = reading.second;
    let third = reading.third;
    if first == 0 {
        return with_words(reading, label, word, 0, 0, 0);
    }
    if second == 0 {
        return with_words(reading, label, first, word, 0, 0);
    }
    if third == 0 {
        return with_words(reading, label, first, second, word, 0);
    }
    if reading.fourth == 0 {
        return with_words(reading, label, first, second, third, word);
    }
    mistaken(reading, Wrong::WordsMany)
}

// Where a word ends.
#[tactic(auto, unfolding(crate::specs::Tokens::ended, crate::specs::Tokens::ended_by))]
fn ended(reading: Reading) -> Reading
    requires { Small reading }
    ensures value { result ≡ ended_of reading }
    ensures small_value { Small result }
{
    match reading.kind {
        Kind::Nothing => reading,
        Kind::Zero | Kind::Decimal | Kind::Hex => added(reading, reading.value + 1),
        Kind::HexMark => mistaken(reading, Wrong::NumberForm),
        Kind::Name => added(reading, reading.value + 65536),
    }
}

// A colon behind the line's first word.
#[tactic(auto, using(model::proofs::TestLaws::tests), unfolding(crate::specs::Tokens::labelled, crate::specs::Tokens::if_right, model::specs::Test::pick, model::specs::Test::both))]
fn labelled(reading: Reading) -> Reading
    requires { Small reading }
    ensures value { result ≡ if_right reading (labelled_of reading) }
    ensures small_value { Small result }
{
    if reading.wrong != 0 {
        return reading;
    }
    if reading.first <= 65535 || reading.second != 0 || reading.label != 0 {
        return mistaken(reading, Wrong::Colon);
    }
    with_words(reading, reading.first, 0, 0, 0, 0)
}

#[tactic(auto, using(model::proofs::TestLaws::tests), unfolding(crate::specs::Tokens::read_byte, model::specs::Test::pick))]
fn read_byte(reading: Reading, byte: u8) -> Reading
    requires { Small reading }
    ensures value { result ≡ read_byte_of reading byte }
    ensures small_value { Small result }
{
    if is_space(byte) {
        return ended(reading);
    }
    if byte == b';' {
        return in_comment(ended(reading));
    }
    if byte == b':' {
        return labelled(ended(reading));
    }
    let character = character(byte);
    if character == 0 {
        return mistaken(reading, Wrong::Character);
    }
    goes_on(reading, character)
}

// A byte of the line. Nothing is read behind a semicolon or behind what is wrong.
#[tactic(auto, using(model::proofs::TestLaws::tests), unfolding(crate::specs::Tokens::next, crate::specs::Tokens::if_right, model::specs::Test::pick))]
pub fn next(reading: Reading, byte: u8) -> Reading
    requires { Small reading }
    ensures value { result ≡ next_of reading byte }
    ensures small_value { Small result }
{
    if reading.wrong != 0 || reading.comment {
        return reading;
    }
    read_byte(reading, byte)
}

// The end of the line.
#[tactic(auto, using(model::proofs::TestLaws::tests), unfolding(crate::specs::Tokens::last, crate::specs::Tokens::if_right, model::specs::Test::pick))]
pub fn last(reading: Reading) -> Reading
    requires { Small reading }
    ensures value { result ≡ last_of reading }
    ensures small_value { Small result }
{
    if reading.wrong != 0 || reading.comment {
        return reading;
    }
    ended(reading)
}
