// assemble: a text to program words. What it prints and writes is the libraries'; the program only reads, lends and writes.

#![tactic(auto)]

use assembly::Mistake;
use command::Command;
use std::io;
use tokens::SourceLine;

fn usage(to: &impl Print) -> io::Result<()> {
    to.println("assemble [--verbose] [TEXT [IMAGE]]")?;
    to.println("disassemble [--verbose] [IMAGE [TEXT]]")
}

// The words, low byte first.
fn to_bytes(words: &[u16], bytes: &mut [u8; 131070]) {
    for i in 0..words.len().min(65535) {
        bytes[2 * i..2 * i + 2].copy_from_slice(&words[i].to_le_bytes());
    }
}

fn write_words(rt: &HostRuntime, command: Command, words: &[u16]) {
    if words.len() > 65535 {
        return;
    }
    let mut bytes = [0u8; 131070];
    to_bytes(words, &mut bytes);
    if !command::write_output(rt, command.output, &bytes[..2 * words.len()]) {
        return;
    }
    if command.verbose {
        command::say(rt, words.len(), b"written");
    }
}

fn tell(rt: &HostRuntime, mistake: Mistake) -> io::Result<()> {
    let mut text = [0u8; 128];
    let end = mistakes::put_kind(&mut text, mistake);
    if end > text.len() {
        return Ok(());
    }
    rt.stderr().write_all(&text[..end])
}

fn assemble(rt: &HostRuntime, command: Command, text: &[u8]) -> io::Result<()> {
    let mut room = [SourceLine::BLANK; 65536];
    let mut words = [0u16; 65535];
    match assembly::assemble(text, &mut room, &mut words) {
        Ok(count) => write_words(rt, command, &words[..count]),
        Err(mistake) => tell(rt, mistake)?,
    }
    Ok(())
}

fn assemble_input(rt: &HostRuntime, command: Command, text: &mut [u8; 1048577]) -> io::Result<()> {
    match command::read_input(rt, command.input, text) {
        Some(count) if count <= text.len() => assemble(rt, command, &text[..count]),
        _ => Ok(()),
    }
}

// The room for a text is made apart from where it is used: beside its making the check doesn't get through its length.
fn run(rt: &HostRuntime, command: Command) -> io::Result<()> {
    let mut text = [0u8; 1048577];
    assemble_input(rt, command, &mut text)
}

fn main(rt: HostRuntime) -> io::Result<()> {
    let command = command::read_command(&rt);
    if command.help {
        return usage(&rt);
    }
    if command.wrong {
        return usage(&rt.stderr());
    }
    run(&rt, command)
}
