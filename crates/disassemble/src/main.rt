// disassemble: program words to a text. What it prints is the library's; the program only reads, lends and writes.

#![tactic(auto)]

use command::Command;
use image::Loaded;
use model::Refusal;
use std::io;

fn usage(to: &impl Print) -> io::Result<()> {
    to.println("assemble [--verbose] [TEXT [IMAGE]]")?;
    to.println("disassemble [--verbose] [IMAGE [TEXT]]")
}

fn print_number(rt: &HostRuntime, number: u16) -> io::Result<()> {
    eprint!(rt; " {number}")
}

// A refusal with its number and place.
fn tell(rt: &HostRuntime, refusal: Refusal) -> io::Result<()> {
    let mut told = [0u16; 5];
    words::write_checked(&mut told, Err(refusal));
    eprint!(rt; "refused")?;
    print_number(rt, told[2])?;
    print_number(rt, told[3])?;
    print_number(rt, told[4])?;
    eprintln!(rt; "")
}

fn write_text(rt: &HostRuntime, command: Command, text: &[u8], end: usize, count: usize) {
    if end > text.len() {
        return;
    }
    if !command::write_output(rt, command.output, &text[..end]) {
        return;
    }
    if command.verbose {
        command::say(rt, count, b"read");
    }
}

fn write_listed(
    rt: &HostRuntime,
    command: Command,
    text: &[u8; 524288],
    end: usize,
    count: usize,
) -> io::Result<()> {
    write_text(rt, command, text, end, count);
    Ok(())
}

fn list(rt: &HostRuntime, command: Command, program: &[u16]) -> io::Result<()> {
    let mut text = [0u8; 524288];
    match listing::disassemble(program, &mut text) {
        Ok(end) => write_listed(rt, command, &text, end, program.len()),
        Err(refusal) => tell(rt, refusal),
    }
}

fn list_loaded(
    rt: &HostRuntime,
    command: Command,
    loaded: Loaded,
    words: &[u16; 65535],
) -> io::Result<()> {
    match loaded.checked {
        Ok(()) if loaded.length <= words.len() => list(rt, command, &words[..loaded.length]),
        Ok(()) => Ok(()),
        Err(refusal) => tell(rt, refusal),
    }
}

// The program of the image's bytes, listed.
fn list_image(rt: &HostRuntime, command: Command, image: &[u8]) -> io::Result<()> {
    let mut words = [0u16; 65535];
    let loaded = image::load(image, &mut words);
    list_loaded(rt, command, loaded, &words)
}

fn run(rt: &HostRuntime, command: Command) -> io::Result<()> {
    let mut bytes = [0u8; 131072];
    match command::read_input(rt, command.input, &mut bytes) {
        Some(count) if count <= bytes.len() => list_image(rt, command, &bytes[..count]),
        _ => Ok(()),
    }
}

fn main(rt: HostRuntime) -> io::Result<()> {
    let command = command::read_command(&rt);
    if command.help {
        return usage(&rt);
    }
    if command.wrong {
        return usage(&rt.stderr());
    }
    run(&rt, command)
}
