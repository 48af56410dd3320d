// The statements' names, and the number of the statement that a word begins.
ghost use Rattle.std.specs.Prelude.{◌+◌, ◌≤◌, ◌<◌, [], ◌≡◌, length, get_or};
ghost use Rattle.text.specs.Puts.{Puts};
ghost use Rattle.tokens.specs.Tokens.{named as named_of, statement as statement_of, statement_names, statement_word};

use crate::line;
use text::put;

// The word of a name's bytes.
#[tactic(auto, using(crate::proofs::LineLaws::spelling))]
fn named(bytes: &[u8]) -> u64
    requires { length bytes.now ≤ 12 }
    ensures { result ≡ named_of bytes.now }
{
    let mut value = 0u64;
    for &byte in bytes {
        value = 38 * value + line::character(byte);
    }
    value + 65536
}

// The name of statement n + 1 at a place of the text, and where it ends; nothing behind the last.
#[tactic(auto, using(crate::proofs::LineLaws::puts_name, crate::proofs::LineLaws::puts_no_name), unfolding(crate::specs::Tokens::statement_names))]
pub fn put_name(text: &mut [u8], at: usize, n: u64) -> usize
    requires { at + 11 ≤ length text.old }
    ensures puts { Puts text.old at text.new result (get_or statement_names n []) }
    ensures upper_bound { result ≤ at + 11 }
{
    match n {
        0 => put(text, at, b"SET"),
        1 => put(text, at, b"MOV"),
        2 => put(text, at, b"ADD"),
        3 => put(text, at, b"SUB"),
        4 => put(text, at, b"AND"),
        5 => put(text, at, b"OR"),
        6 => put(text, at, b"XOR"),
        7 => put(text, at, b"SHR"),
        8 => put(text, at, b"LOAD"),
        9 => put(text, at, b"SAVE"),
        10 => put(text, at, b"LOADX"),
        11 => put(text, at, b"SAVEX"),
        12 => put(text, at, b"JUMP"),
        13 => put(text, at, b"JZ"),
        14 => put(text, at, b"JLT"),
        15 => put(text, at, b"GO"),
        16 => put(text, at, b"DONE"),
        17 => put(text, at, b"memory"),
        18 => put(text, at, b"entry"),
        19 => put(text, at, b"transaction"),
        20 => put(text, at, b"task"),
        21 => put(text, at, b"event"),
        22.. => at,
    }
}

// The word of the name of statement n + 1; 0 behind the last.
#[tactic(auto, using(crate::proofs::LineLaws::statement_words))]
fn word(n: u64) -> u64
    ensures { result ≡ statement_word n }
{
    if n >= 22 {
        return 0;
    }
    let mut name = [0u8; 11];
    let end = put_name(&mut name, 0, n);
    named(&name[..end])
}

// The statement that a word begins: 0 where there is none, 23 where it is no statement's name.
#[tactic(auto, using(crate::proofs::LineLaws::statement_of_word))]
pub fn statement(first: u64) -> u64
    ensures { result ≡ statement_of first }
{
    if first == 0 {
        return 0;
    }
    for n in 0..22 {
        if first == word(n) {
            return n + 1;
        }
    }
    23
}
