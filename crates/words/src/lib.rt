// Device states, answers and refusals as words and back, for a boundary that no enum crosses. specs/Words.antt has both tables.
// Every contract is an equation for all inputs: of 26 words it is told whether they are a device state's.
// Each conversion is a function and no `From`: the types are crate model's and arrays are std's, so no impl of theirs can stand here.

#![tactic(auto)]

ghost use Rattle.std.specs.Prelude.{◌≡◌, leb, Some, None};
ghost use Rattle.model.specs.Test.{pick};
ghost use Rattle.words.specs.Words.{kind, number, place_words, handler_words, device_words, with_burst};
ghost use Rattle.words.specs.Words.{body_of, place_of, is_place, handler_of, is_handler, is_record, are_records, burst_of, is_state, state_of};
ghost use Rattle.words.specs.Words.{refused_words, accepted_words, answer_words, ended_words, checked_words, unknown_words, nothing_posted_words};
ghost use Rattle.words.specs.Words.{stored_number, step_words, unknown_step_words};

use model::{Answer, Body, Device, Handler, Place, Record, Refusal};

// ---- A device state as 26 words

// A body is two words: its kind, task or event, and its number.
#[tactic(auto, unfolding(crate::specs::Words::kind))]
fn kind(body: Body) -> u16
    ensures { result ≡ kind body }
{
    match body {
        Body::Task(_) => 0,
        Body::Event(_) => 1,
    }
}

#[tactic(auto, unfolding(crate::specs::Words::number))]
fn number(body: Body) -> u16
    ensures { result ≡ number body }
{
    match body {
        Body::Task(n) | Body::Event(n) => n,
    }
}

// Words 9 to 13.
#[tactic(auto, unfolding(crate::specs::Words::place_words))]
fn place_words(place: Place) -> [u16; 5]
    ensures { result ≡ place_words place }
{
    match place {
        Place::Free(made) => [0, 0, 0, 0, made],
        Place::Run(body, instruction, made) => [1, kind(body), number(body), instruction, made],
        Place::Half(body, instruction) => [2, kind(body), number(body), instruction, 0],
    }
}

// Words 15 to 17.
#[tactic(auto, unfolding(crate::specs::Words::handler_words))]
fn handler_words(handler: Handler) -> [u16; 3]
    ensures { result ≡ handler_words handler }
{
    match handler {
        Handler::Resting => [0, 0, 0],
        Handler::Storing(length, made) => [1, length, made],
        Handler::Dropping => [2, 1, 0],
        Handler::Replacing(made) => [3, 1, made],
    }
}

// The words of a device state.
pub fn write_device(words: &mut [u16; 26], device: Device)
    ensures { words.new ≡ device_words device }
{
    let registers = device.registers;
    let place = device.place;
    let handler = device.handler;
    let burst = device.burst;
    let place_words = place_words(place);
    let handler_words = handler_words(handler);
    *words = [
        u16::from(device.on),
        registers[0],
        registers[1],
        registers[2],
        registers[3],
        registers[4],
        registers[5],
        registers[6],
        registers[7],
        place_words[0],
        place_words[1],
        place_words[2],
        place_words[3],
        place_words[4],
        device.count,
        handler_words[0],
        handler_words[1],
        handler_words[2],
        burst[0],
        burst[1],
        burst[2],
        burst[3],
        burst[4],
        burst[5],
        burst[6],
        burst[7],
    ];
}

// The words of a device state whose handler is set to work on a burst: all but words 15 to 25 stay.
pub fn with_burst(words: &[u16; 26], handler: Handler, burst: [u16; 8]) -> [u16; 26]
    ensures { result ≡ with_burst words.now handler burst }
{
    let work = handler_words(handler);
    [
        words[0], words[1], words[2], words[3], words[4], words[5], words[6], words[7], words[8],
        words[9], words[10], words[11], words[12], words[13], words[14], work[0], work[1], work[2],
        burst[0], burst[1], burst[2], burst[3], burst[4], burst[5], burst[6], burst[7],
    ]
}

// ---- 26 words as a device state

// The body of its two words.
#[tactic(auto, using(crate::proofs::Parts::tests), unfolding(crate::specs::Words::body_of, model::specs::Test::pick))]
fn body_of(kind: u16, number: u16) -> Body
    ensures { result ≡ body_of kind number }
{
    if kind == 0 {
        Body::Task(number)
    } else {
        Body::Event(number)
    }
}

// The place of words 9 to 13, and whether they are the words of a place.
#[tactic(auto, using(crate::proofs::Parts::tests), unfolding(crate::specs::Words::place_of, model::specs::Test::pick))]
fn place_of(place: u16, kind: u16, number: u16, instruction: u16, made: u16) -> Place
    ensures { result ≡ place_of place kind number instruction made }
{
    if place == 0 {
        Place::Free(made)
    } else if place == 1 {
        Place::Run(body_of(kind, number), instruction, made)
    } else {
        Place::Half(body_of(kind, number), instruction)
    }
}

#[tactic(auto, using(crate::proofs::Parts::tests), unfolding(crate::specs::Words::is_place, model::specs::Test::pick, model::specs::Test::both))]
fn is_place(place: u16, kind: u16, number: u16, instruction: u16, made: u16) -> bool
    ensures { result ≡ is_place place kind number instruction made }
{
    if place == 0 {
        kind == 0 && number == 0 && instruction == 0
    } else {
        kind <= 1 && (place == 1 || place == 2 && made == 0)
    }
}

// The handler of words 15 to 17, and whether they are the words of a handler.
#[tactic(auto, using(crate::proofs::Parts::tests), unfolding(crate::specs::Words::handler_of, model::specs::Test::pick))]
fn handler_of(work: u16, length: u16, made: u16) -> Handler
    ensures { result ≡ handler_of work length made }
{
    if work == 0 {
        Handler::Resting
    } else if work == 1 {
        Handler::Storing(length, made)
    } else if work == 2 {
        Handler::Dropping
    } else {
        Handler::Replacing(made)
    }
}

#[tactic(auto, using(crate::proofs::Parts::tests), unfolding(crate::specs::Words::is_handler, model::specs::Test::pick, model::specs::Test::both))]
fn is_handler(work: u16, length: u16, made: u16) -> bool
    ensures { result ≡ is_handler work length made }
{
    if work == 0 {
        length == 0 && made == 0
    } else {
        work == 1 || length == 1 && (work == 3 || work == 2 && made == 0)
    }
}

// The two words of a record beside a burst of so many: behind the last one they are 0.
#[tactic(auto, using(model::proofs::TestLaws::tests), unfolding(crate::specs::Words::is_record, model::specs::Test::pick, model::specs::Test::both))]
fn is_record(length: u16, number: u16, event: u16, datum: u16) -> bool
    ensures { result ≡ is_record length number event datum }
{
    number < length || (event == 0 && datum == 0)
}

// Words 18 to 25, beside a burst of so many records. Of no burst their bits are asked together, which is one test for eight.
#[tactic(auto, using(model::proofs::TestLaws::both_zero), unfolding(crate::specs::Words::are_records, crate::specs::Words::is_record, model::specs::Test::pick, model::specs::Test::both))]
fn are_records(words: &[u16; 26], length: u16) -> bool
    ensures { result ≡ are_records length (burst_of words.now) }
{
    if length == 0 {
        let bits = (words[18] | words[19])
            | ((words[20] | words[21]) | ((words[22] | words[23]) | (words[24] | words[25])));
        return bits == 0;
    }
    is_record(length, 0, words[18], words[19])
        && is_record(length, 1, words[20], words[21])
        && is_record(length, 2, words[22], words[23])
        && is_record(length, 3, words[24], words[25])
}

// Are 26 words those of a device state?
#[tactic(auto, using(crate::proofs::Parts::tests), unfolding(crate::specs::Words::is_state, model::specs::Test::both))]
#[inline(never)]
pub fn is_state(words: &[u16; 26]) -> bool
    ensures { result ≡ is_state words.now }
{
    words[0] <= 1
        && is_place(words[9], words[10], words[11], words[12], words[13])
        && is_handler(words[15], words[16], words[17])
        && are_records(words, words[16])
}

// The device state of words that are one's.
#[tactic(auto, using(crate::proofs::Parts::tests), unfolding(crate::specs::Words::state_of))]
pub fn state_of(words: &[u16; 26]) -> Device
    ensures { result ≡ state_of words.now }
{
    let registers = [
        words[1], words[2], words[3], words[4], words[5], words[6], words[7], words[8],
    ];
    let burst = [
        words[18], words[19], words[20], words[21], words[22], words[23], words[24], words[25],
    ];
    Device {
        on: words[0] == 1,
        registers,
        place: place_of(words[9], words[10], words[11], words[12], words[13]),
        count: words[14],
        handler: handler_of(words[15], words[16], words[17]),
        burst,
    }
}

// The device state of 26 words, if they are the words of one. The test and the reading stand apart: an Option of each part, joined by `?`, takes a
// step through the C functions 60 instructions more (docs/DESIGN-PASS.md).
#[tactic(auto, unfolding(model::specs::Test::pick))]
#[inline(always)]
pub fn read_device(words: &[u16; 26]) -> Option<Device>
    ensures { result ≡ pick (is_state words.now) (Some (state_of words.now)) None }
{
    if is_state(words) {
        Some(state_of(words))
    } else {
        None
    }
}

// ---- Answers as 5 words: case, kind of body, number, place

// A refusal: case 6, with its number and place.
#[tactic(auto, unfolding(crate::specs::Words::refused_words, model::specs::Answer::refusal))]
fn refused_words(why: Refusal) -> [u16; 5]
    ensures { result ≡ refused_words why }
{
    match why {
        Refusal::ProgramLength => [6, 0, 1, 0, 0],
        Refusal::ProgramMark => [6, 0, 2, 0, 0],
        Refusal::ProgramSize(word) => [6, 0, 3, word, 0],
        Refusal::Row(body) => [6, 0, 4, body, 0],
        Refusal::Instruction(body, instruction) => [6, 0, 5, body, instruction],
        Refusal::StoreContents => [6, 0, 6, 0, 0],
        Refusal::Control(word) => [6, 0, 7, word, 0],
        Refusal::NoEvent(position) => [6, 0, 8, position, 0],
        Refusal::StoreSize => [6, 0, 9, 0, 0],
        Refusal::HandlerBusy => [6, 0, 20, 0, 0],
        Refusal::QueueFull => [6, 0, 21, 0, 0],
        Refusal::PowerOff => [6, 0, 22, 0, 0],
        Refusal::Address => [6, 0, 23, 0, 0],
        Refusal::LogFull => [6, 0, 24, 0, 0],
        Refusal::State => [6, 0, 25, 0, 0],
        Refusal::PowerOn => [6, 0, 26, 0, 0],
        Refusal::LinesRow(row) => [6, 0, 30, row, 0],
        Refusal::LinesGap(line, level) => [6, 0, 31, line, level],
        Refusal::LinesOverlap(line, level) => [6, 0, 32, line, level],
        Refusal::BurstLength => [6, 0, 33, 0, 0],
    }
}

// An acceptance: case 5, with the record that was dropped.
#[tactic(auto, unfolding(crate::specs::Words::accepted_words))]
fn accepted_words(dropped: Option<Record>) -> [u16; 5]
    ensures { result ≡ accepted_words dropped }
{
    match dropped {
        None => [5, 0, 0, 0, 0],
        Some(Record { event, datum }) => [5, 1, event, datum, 0],
    }
}

// An answer of each case.
#[tactic(auto, unfolding(crate::specs::Words::answer_words))]
fn answer_words(answer: Answer) -> [u16; 5]
    ensures { result ≡ answer_words answer }
{
    match answer {
        Answer::Done => [0, 0, 0, 0, 0],
        Answer::Chosen(body) => [1, kind(body), number(body), 0, 0],
        Answer::Worked => [2, 0, 0, 0, 0],
        Answer::Stored => [3, 0, 0, 0, 0],
        Answer::Committed(body) => [4, kind(body), number(body), 0, 0],
        Answer::Accepted(dropped) => accepted_words(dropped),
        Answer::Refused(why) => refused_words(why),
    }
}

// What a call answers.
pub fn write_answer(words: &mut [u16; 5], answer: Answer)
    ensures { words.new ≡ answer_words answer }
{
    *words = answer_words(answer);
}

// How a run ends.
#[tactic(auto, unfolding(crate::specs::Words::ended_words))]
pub fn write_ended(words: &mut [u16; 5], ended: Result<(), Refusal>)
    ensures { words.new ≡ ended_words ended }
{
    *words = match ended {
        Ok(()) => [7, 0, 0, 0, 0],
        Err(why) => refused_words(why),
    };
}

// What a check finds.
#[tactic(auto, unfolding(crate::specs::Words::checked_words))]
pub fn write_checked(words: &mut [u16; 5], found: Result<(), Refusal>)
    ensures { words.new ≡ checked_words found }
{
    *words = match found {
        Ok(()) => [0, 0, 0, 0, 0],
        Err(why) => refused_words(why),
    };
}

// The next two differ in a number. It is the C interface's: each has a name, so that no caller writes one.

// A raise posts nothing.
#[tactic(auto, unfolding(crate::specs::Words::nothing_posted_words))]
pub fn write_nothing_posted(words: &mut [u16; 5])
    ensures { words.new ≡ nothing_posted_words }
{
    *words = [9, 0, 0, 0, 0];
}

// The device words stand for no device state.
#[tactic(auto, unfolding(crate::specs::Words::unknown_words))]
pub fn write_unknown(words: &mut [u16; 5])
    ensures { words.new ≡ unknown_words }
{
    *words = [8, 0, 0, 0, 0];
}

// ---- A step's answer as 6 words: those of an answer, and the word that it stored

// A word of the store by its index; 65535 for none.
#[tactic(auto, unfolding(crate::specs::Words::stored_number))]
fn stored_number(stored: Option<u16>) -> u16
    ensures { result ≡ stored_number stored }
{
    stored.unwrap_or(65535)
}

// What a step answers, and which word it stored.
#[tactic(auto, using(crate::proofs::Parts::answer_spelt), unfolding(crate::specs::Words::step_words))]
pub fn write_step(words: &mut [u16; 6], answer: Answer, stored: Option<u16>)
    ensures { words.new ≡ step_words answer stored }
{
    let a = answer_words(answer);
    *words = [a[0], a[1], a[2], a[3], a[4], stored_number(stored)];
}

// The device words stand for no device state: nothing is stored.
#[tactic(auto, unfolding(crate::specs::Words::unknown_step_words, crate::specs::Words::unknown_words, crate::specs::Words::stored_number))]
pub fn write_unknown_step(words: &mut [u16; 6])
    ensures { words.new ≡ unknown_step_words }
{
    *words = [8, 0, 0, 0, 0, 65535];
}
