// The lines that are printed of a store on wish, each put at a place of the text; a function answers where what it put ends.
ghost use Rattle.std.specs.Prelude.{◌+◌, ◌*◌, ◌≤◌, ◌<◌, length, take, [], ◌∷◌, ◌≡◌};
ghost use Rattle.model.specs.Store.{view};
ghost use Rattle.model.specs.Test.{pick};
ghost use Rattle.text.specs.Puts.{Puts};
ghost use Rattle.text.specs.Text.{space};
ghost use Rattle.trace.specs.Trace.{tab, labelled, parted, numbered, refused_part, decimal_cells, words_line, memory_line, memory_part, fields, control_columns, commit_columns, control_part, record_of, queue_line, empty_line, recovery_line};

use crate::layout::{field, tabbed};
use text::hex::hex_words;
use text::{decimal, put};

#[tactic(auto, using(text::proofs::TextLaws::puts), unfolding(crate::specs::Trace::labelled, model::specs::Test::pick))]
fn labelled(text: &mut [u8], at: usize, tabs: bool, number: u64, label: &[u8]) -> usize
    requires { (at + 37 ≤ length text.old) × (length label.now ≤ 16) }
    ensures puts { Puts text.old at text.new result (labelled tabs number label.now) }
    ensures upper_bound { result ≤ at + 37 }
{
    if tabs {
        let end = decimal(text, at, number);
        let end = put(text, end, b"\t");
        return put(text, end, label);
    }
    let end = put(text, at, b"    ");
    put(text, end, label)
}

// What parts two cells, or two words.
#[tactic(auto, using(text::proofs::TextLaws::puts), unfolding(model::specs::Test::pick))]
fn parting(text: &mut [u8], at: usize, tabs: bool) -> usize
    requires { at + 1 ≤ length text.old }
    ensures { Puts text.old at text.new result (pick tabs tab space ∷ []) }
{
    if tabs {
        return put(text, at, b"\t");
    }
    put(text, at, b" ")
}

#[tactic(auto, using(text::proofs::TextLaws::puts), unfolding(crate::specs::Trace::parted, model::specs::Test::pick))]
fn parted(text: &mut [u8], at: usize, tabs: bool, bytes: &[u8]) -> usize
    requires { at + 1 + length bytes.now ≤ length text.old }
    ensures puts { Puts text.old at text.new result (parted tabs bytes.now) }
    ensures value { result ≡ at + 1 + length bytes.now }
{
    let end = parting(text, at, tabs);
    put(text, end, bytes)
}

#[tactic(auto, using(text::proofs::TextLaws::puts), unfolding(crate::specs::Trace::parted, model::specs::Test::pick))]
fn numbered(text: &mut [u8], at: usize, tabs: bool, n: u64) -> usize
    requires { at + 21 ≤ length text.old }
    ensures puts { Puts text.old at text.new result (numbered tabs n) }
    ensures upper_bound { result ≤ at + 21 }
{
    let end = parting(text, at, tabs);
    decimal(text, end, n)
}

// A word of an answer.
fn told(text: &mut [u8], at: usize, tabs: bool, n: u16) -> usize
    requires { at + 21 ≤ length text.old }
    ensures puts { Puts text.old at text.new result (numbered tabs n) }
    ensures upper_bound { result ≤ at + 21 }
{
    numbered(text, at, tabs, n as u64)
}

// One line where a part can't be shown: the refusal whose answer has these words.
#[tactic(auto, using(text::proofs::TextLaws::puts), unfolding(crate::specs::Trace::refused_part))]
pub fn refused_part(
    text: &mut [u8],
    at: usize,
    tabs: bool,
    number: u64,
    label: &[u8],
    answer: &[u16; 5],
) -> usize
    requires { (at + 512 ≤ length text.old) × (length label.now ≤ 16) }
    ensures puts { Puts text.old at text.new result
        (refused_part tabs number label.now answer.now) }
    ensures upper_bound { result ≤ at + 512 }
{
    let end = labelled(text, at, tabs, number, label);
    let end = parted(text, end, tabs, b"refused");
    let end = told(text, end, tabs, answer[2]);
    let end = told(text, end, tabs, answer[3]);
    let end = told(text, end, tabs, answer[4]);
    put(text, end, b"\n")
}

fn decimal_cells(text: &mut [u8], at: usize, words: &[u16]) -> usize
    requires { at + 21 * length words.now ≤ length text.old }
    ensures puts { Puts text.old at text.new result (decimal_cells words.now) }
    ensures upper_bound { result ≤ at + 21 * length words.now }
{
    let mut end = at;
    for word in words {
        end = tabbed(text, end, *word as u64);
    }
    end
}

// A line of at most eight words, with the first one's address.
#[tactic(auto, using(text::proofs::TextLaws::puts), unfolding(crate::specs::Trace::words_line, model::specs::Test::pick))]
fn words_line(
    text: &mut [u8],
    at: usize,
    tabs: bool,
    number: u64,
    label: &[u8],
    first: u64,
    words: &[u16],
) -> usize
    requires { (at + 256 ≤ length text.old) × (length label.now ≤ 16) × (length words.now ≤ 8) }
    ensures puts { Puts text.old at text.new result
        (words_line tabs number label.now first words.now) }
    ensures upper_bound { result ≤ at + 256 }
{
    let end = labelled(text, at, tabs, number, label);
    let end = numbered(text, end, tabs, first);
    if tabs {
        let end = decimal_cells(text, end, words);
        return put(text, end, b"\n");
    }
    let end = put(text, end, b" ");
    let end = hex_words(text, end, words);
    put(text, end, b"\n")
}

// Line k of the memory's words.
fn memory_line(
    text: &mut [u8],
    at: usize,
    tabs: bool,
    number: u64,
    label: &[u8],
    memory: &[u16],
    k: usize,
) -> usize
    requires { (at + 256 ≤ length text.old) × (length label.now ≤ 16) × (8 * k < length memory.now) }
    ensures puts { Puts text.old at text.new result
        (memory_line tabs number label.now memory.now k) }
    ensures upper_bound { result ≤ at + 256 }
{
    let first = 8 * k;
    let rest = &memory[first..];
    let words = &rest[..rest.len().min(8)];
    words_line(text, at, tabs, number, label, first as u64, words)
}

pub fn memory_part(
    text: &mut [u8],
    at: usize,
    tabs: bool,
    number: u64,
    label: &[u8],
    memory: &[u16],
) -> usize
    requires { (at + 32768 ≤ length text.old) × (length label.now ≤ 16) × (length memory.now ≤ 1024) }
    ensures puts { Puts text.old at text.new result
        (memory_part tabs number label.now memory.now) }
    ensures upper_bound { result ≤ at + 32768 }
{
    let mut end = at;
    for k in 0..(memory.len() + 7) / 8 {
        end = memory_line(text, end, tabs, number, label, memory, k);
    }
    end
}

#[tactic(auto, using(text::proofs::TextLaws::puts), unfolding(crate::specs::Trace::control_columns))]
fn control_columns(text: &mut [u8], at: usize, store: &[u16]) -> usize
    requires { (at + 176 ≤ length text.old) × (17 ≤ length store.now) }
    ensures puts { Puts text.old at text.new result (control_columns (view store.now)) }
    ensures upper_bound { result ≤ at + 176 }
{
    let end = field(text, at, b"    control phase", store[8]);
    let end = field(text, end, b", task", store[9]);
    let end = field(text, end, b", open", store[10]);
    let end = field(text, end, b", begun", store[16]);
    let end = field(text, end, b", head", store[14]);
    field(text, end, b", tail", store[15])
}

#[tactic(auto, using(text::proofs::TextLaws::puts), unfolding(crate::specs::Trace::commit_columns))]
fn commit_columns(text: &mut [u8], at: usize, store: &[u16]) -> usize
    requires { (at + 103 ≤ length text.old) × (17 ≤ length store.now) }
    ensures puts { Puts text.old at text.new result (commit_columns (view store.now)) }
    ensures upper_bound { result ≤ at + 103 }
{
    let end = field(text, at, b"\n    commit count", store[11]);
    let end = field(text, end, b", pending", store[12]);
    field(text, end, b", pending open", store[13])
}

#[tactic(auto, using(text::proofs::TextLaws::puts), unfolding(crate::specs::Trace::control_part, model::specs::Test::pick))]
pub fn control_part(text: &mut [u8], at: usize, tabs: bool, number: u64, store: &[u16]) -> usize
    requires { (at + 512 ≤ length text.old) × (17 ≤ length store.now) }
    ensures puts { Puts text.old at text.new result (control_part tabs number store.now) }
    ensures upper_bound { result ≤ at + 512 }
{
    if tabs {
        let end = labelled(text, at, true, number, b"control");
        let end = decimal_cells(text, end, &store[8..17]);
        return put(text, end, b"\n");
    }
    let end = control_columns(text, at, store);
    let end = commit_columns(text, end, store);
    put(text, end, b"\n")
}

// Two values, in cells or behind their names.
#[tactic(auto, using(text::proofs::TextLaws::puts), unfolding(crate::specs::Trace::fields, model::specs::Test::pick))]
fn fields(
    text: &mut [u8],
    at: usize,
    tabs: bool,
    first: &[u8],
    x: u16,
    second: &[u8],
    y: u16,
) -> usize
    requires { (at + 64 ≤ length text.old) × (length first.now ≤ 12) × (length second.now ≤ 10) }
    ensures puts { Puts text.old at text.new result (fields tabs first.now x second.now y) }
    ensures upper_bound { result ≤ at + 64 }
{
    if tabs {
        let end = tabbed(text, at, x as u64);
        return tabbed(text, end, y as u64);
    }
    let end = field(text, at, first, x);
    field(text, end, second, y)
}

// The line of a waiting record.
#[tactic(auto, using(text::proofs::TextLaws::puts), unfolding(crate::specs::Trace::queue_line))]
pub fn queue_line(
    text: &mut [u8],
    at: usize,
    tabs: bool,
    number: u64,
    label: &[u8],
    position: u64,
    event: u16,
    datum: u16,
) -> usize
    requires { (at + 512 ≤ length text.old) × (length label.now ≤ 16) }
    ensures puts { Puts text.old at text.new result
        (queue_line tabs number label.now position (record_of event datum)) }
    ensures upper_bound { result ≤ at + 512 }
{
    let end = labelled(text, at, tabs, number, label);
    let end = numbered(text, end, tabs, position);
    let end = fields(text, end, tabs, b" event", event, b", data", datum);
    put(text, end, b"\n")
}

#[tactic(auto, using(text::proofs::TextLaws::puts), unfolding(crate::specs::Trace::empty_line))]
pub fn empty_line(text: &mut [u8], at: usize, tabs: bool, number: u64, label: &[u8]) -> usize
    requires { (at + 512 ≤ length text.old) × (length label.now ≤ 16) }
    ensures puts { Puts text.old at text.new result (empty_line tabs number label.now) }
    ensures upper_bound { result ≤ at + 512 }
{
    let end = labelled(text, at, tabs, number, label);
    let end = parted(text, end, tabs, b"empty");
    put(text, end, b"\n")
}

// What uncut recovery took, and the task and open number of the store that it left.
#[tactic(auto, using(text::proofs::TextLaws::puts), unfolding(crate::specs::Trace::recovery_line))]
pub fn recovery_line(
    text: &mut [u8],
    at: usize,
    tabs: bool,
    number: u64,
    steps: u32,
    task: u16,
    open_number: u16,
) -> usize
    requires { at + 512 ≤ length text.old }
    ensures puts { Puts text.old at text.new result (recovery_line tabs number steps task open_number) }
    ensures upper_bound { result ≤ at + 512 }
{
    let end = labelled(text, at, tabs, number, b"recovery");
    let end = numbered(text, end, tabs, steps as u64);
    let end = fields(
        text,
        end,
        tabs,
        b" steps, task",
        task,
        b", open",
        open_number,
    );
    put(text, end, b"\n")
}
