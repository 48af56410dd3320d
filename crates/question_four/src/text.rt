// Text on standard output: numbers in columns, words in hex.

use std::io;

pub fn put(out: &impl Print, text: &[u8]) -> io::Result<()> {
    out.write_all(text)
}

pub fn line(out: &impl Print, text: &[u8]) -> io::Result<()> {
    put(out, text)?;
    put(out, b"\n")
}

// Up to 40 of them, in one write, since nothing is buffered.
pub fn spaces(out: &impl Print, n: u16) -> io::Result<()> {
    let spaces = b"                                        ";
    put(out, &spaces[..spaces.len().min(n as usize)])
}

// What is left of a column, of which so much is used.
pub fn rest(out: &impl Print, used: u16, width: u16) -> io::Result<()> {
    spaces(out, width.saturating_sub(used))
}

pub fn decimal(out: &impl Print, n: u32) -> io::Result<()> {
    out.print(n)
}

// n, right in a column of two.
pub fn two(out: &impl Print, n: u32) -> io::Result<()> {
    print!(out; "{n:2}")
}

// A word, as four hex digits.
pub fn hex(out: &impl Print, word: u16) -> io::Result<()> {
    print!(out; "{word:04X}")
}
