// The stored word: its index, name and value, each put at a place of the text; a function answers where what it put ends.
ghost use Rattle.std.specs.Prelude.{◌+◌, ◌≤◌, length, get_or, [], ◌≡◌};
ghost use Rattle.model.specs.Program.{word};
ghost use Rattle.text.specs.Puts.{Puts};
ghost use Rattle.trace.specs.Trace.{control_names, pair_name, word_name, name_in, stored_column, stored_cells};

use crate::layout::{field, tabbed};
use text::{decimal, put, spaced};

// No word's index: nothing was stored. It stays a number, as the answer's words have it (the C interface).
pub const NOTHING: u16 = 65535;

// A word of the store; 0 where there is none.
fn word_at(store: &[u16], i: usize) -> u16
    ensures { result ≡ word store.now i }
{
    if i < store.len() { store[i] } else { 0 }
}

// The name of control word 8 + n; nothing behind the last.
#[tactic(auto, unfolding(crate::specs::Trace::control_names))]
fn control_name(n: u16) -> &'static [u8]
    ensures name { result.now ≡ get_or control_names n [] }
    ensures length_bound { length result.now ≤ 12 }
{
    match n {
        0 => b"phase",
        1 => b"task",
        2 => b"open",
        3 => b"count",
        4 => b"pending",
        5 => b"pending open",
        6 => b"head",
        7 => b"tail",
        8 => b"begun",
        9.. => b"",
    }
}

// Word i of a part whose words come in twos.
#[tactic(auto, using(text::proofs::TextLaws::puts, model::proofs::TestLaws::tests), unfolding(crate::specs::Trace::pair_name, crate::specs::Trace::field, model::specs::Test::pick))]
fn pair_name(text: &mut [u8], at: usize, even: &[u8], odd: &[u8], i: u16) -> usize
    requires { (at + 28 ≤ length text.old) × (length even.now ≤ 7) × (length odd.now ≤ 7) }
    ensures puts { Puts text.old at text.new result (pair_name even.now odd.now i) }
    ensures upper_bound { result ≤ at + 28 }
{
    if i % 2 == 0 {
        return field(text, at, even, i / 2);
    }
    field(text, at, odd, i / 2)
}

// The name of word i of a store of m memory words and l log pairs.
#[tactic(auto, using(text::proofs::TextLaws::puts, model::proofs::TestLaws::tests), unfolding(crate::specs::Trace::word_name, crate::specs::Trace::field, model::specs::Test::pick))]
fn word_name(text: &mut [u8], at: usize, m: u16, l: u16, i: u16) -> usize
    requires { at + 28 ≤ length text.old }
    ensures puts { Puts text.old at text.new result (word_name m l i) }
    ensures upper_bound { result ≤ at + 28 }
{
    if i < 8 {
        return put(text, at, b"contents");
    }
    if i < 17 {
        return put(text, at, control_name(i - 8));
    }
    let address = i - 17;
    if address < m {
        return field(text, at, b"memory", address);
    }
    let behind = address - m;
    if behind / 2 < l {
        return pair_name(text, at, b"address", b"value", behind);
    }
    pair_name(text, at, b"event", b"data", behind - 2 * l)
}

fn name_in(text: &mut [u8], at: usize, store: &[u16], i: u16) -> usize
    requires { at + 28 ≤ length text.old }
    ensures puts { Puts text.old at text.new result (name_in store.now i) }
    ensures upper_bound { result ≤ at + 28 }
{
    word_name(text, at, word_at(store, 1), word_at(store, 2), i)
}

// For people: index, name and value.
#[tactic(auto, using(text::proofs::TextLaws::puts), unfolding(crate::specs::Trace::stored_column))]
pub fn stored_column(text: &mut [u8], at: usize, store: &[u16], i: u16) -> usize
    requires { at + 72 ≤ length text.old }
    ensures puts { Puts text.old at text.new result (stored_column store.now i) }
    ensures upper_bound { result ≤ at + 72 }
{
    let end = decimal(text, at, i as u64);
    let end = put(text, end, b" ");
    let end = name_in(text, end, store, i);
    let end = put(text, end, b" =");
    spaced(text, end, word_at(store, i as usize))
}

// The last three cells, empty where nothing was stored.
#[tactic(auto, using(text::proofs::TextLaws::puts, model::proofs::TestLaws::tests), unfolding(crate::specs::Trace::stored_cells, model::specs::Test::pick))]
pub fn stored_cells(text: &mut [u8], at: usize, store: &[u16], i: u16) -> usize
    requires { at + 72 ≤ length text.old }
    ensures puts { Puts text.old at text.new result (stored_cells store.now i) }
    ensures upper_bound { result ≤ at + 72 }
{
    if i == NOTHING {
        return put(text, at, b"\t\t\t");
    }
    let end = tabbed(text, at, i as u64);
    let end = put(text, end, b"\t");
    let end = name_in(text, end, store, i);
    let value = word_at(store, i as usize);
    tabbed(text, end, value as u64)
}
