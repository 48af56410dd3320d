// Prints an exam sheet: program.img of the current folder, the schedule from standard input, the sheet to standard output.
// What is printed is the library's (crate sheet); the program only reads, lends and writes.

#![tactic(auto)]

ghost use Rattle.std.specs.Prelude.{◌≤◌, length};

use image::Loaded;
use model::Refusal;
use sheet::State;
use std::io::Read;
use std::{fs, io};

// "a missing file is empty", and so is one that can't be read. What lies past the bytes that are read decides nothing
// (`LongIsRefused`, crates/image).
fn read_image(rt: &HostRuntime, image: &mut [u8; 131072]) -> usize {
    let (count, outcome) = read_program(rt, image);
    if let Err(error) = outcome {
        command::fail(rt, b"program.img", &error);
    }
    count
}

// Where reading fails in the middle, what was read counts.
fn read_program(rt: &HostRuntime, image: &mut [u8]) -> (usize, io::Result<()>) {
    match fs::open(rt, "program.img") {
        Ok(mut file) => command::read_full(&mut file, image),
        Err(error) => (0, Err(error)),
    }
}

// The first bytes of the text, as many as the library says; whether they were written.
fn write(rt: &HostRuntime, text: &[u8], end: usize) -> bool {
    let Some(first) = text.get(..end) else {
        return false;
    };
    match rt.write_all(first) {
        Ok(()) => true,
        Err(error) => {
            command::fail(rt, b"standard output", &error);
            false
        }
    }
}

// Bytes of the schedule, and their text, as often as the text is full. A sheet that can't be written out any more ends.
fn feed(
    rt: &HostRuntime,
    program: &[u16],
    store: &mut [u16],
    copy: &mut [u16],
    text: &mut [u8; 65536],
    bytes: &[u8],
    state: State,
) -> State {
    let mut now = state;
    let mut rest = bytes;
    // By what the sheet took, not one by one.
    while !rest.is_empty() {
        let fed = sheet::feed(program, store, copy, text, rest, now);
        now = fed.state;
        if !write(rt, text, fed.written) {
            return State { ended: true, ..now };
        }
        rest = &rest[fed.taken..];
    }
    now
}

// The next bytes of the schedule, and how many they are: none at its end, and none where it can't be read.
fn read_some(rt: &HostRuntime, bytes: &mut [u8]) -> usize
    ensures { result ≤ length bytes.new }
{
    rt.stdin().read(bytes).unwrap_or(0)
}

// The schedule, up to its end or that of the sheet. A proved loop has to end, and nothing says that a schedule does: so it counts its turns
// down, from a number that no schedule uses up.
fn feed_all(
    rt: &HostRuntime,
    program: &[u16],
    store: &mut [u16],
    copy: &mut [u16],
    text: &mut [u8; 65536],
    state: State,
) -> State {
    let mut now = state;
    let mut bytes = [0u8; 65536];
    for _ in 0..u64::MAX {
        let count = read_some(rt, &mut bytes);
        if count == 0 {
            break;
        }
        now = feed(rt, program, store, copy, text, &bytes[..count], now);
        if now.ended {
            break;
        }
    }
    now
}

fn print(
    rt: &HostRuntime,
    checked: Result<(), Refusal>,
    program: &[u16],
    store: &mut [u16],
    copy: &mut [u16],
) {
    let mut text = [0u8; 65536];
    let begun = sheet::begin(checked, program, store, &mut text);
    if !write(rt, &text, begun.end) {
        return;
    }
    let last = feed_all(rt, program, store, copy, &mut text, begun.state);
    let end = sheet::finish(program, store, copy, &mut text, last);
    write(rt, &text, end);
}

// The sheet of the first words, as many as the library says.
fn print_loaded(rt: &HostRuntime, loaded: Loaded, words: &[u16]) {
    if let Some(program) = words.get(..loaded.length) {
        let size = image::store_words(program);
        let mut store = [0u16; 1047];
        let mut copy = [0u16; 1047];
        print(
            rt,
            loaded.checked,
            program,
            &mut store[..size],
            &mut copy[..size],
        );
    }
}

fn main(rt: HostRuntime) {
    let mut image = [0u8; 131072];
    let count = read_image(&rt, &mut image);
    let mut words = [0u16; 65535];
    let loaded = image::load(image.get(..count).unwrap_or(&image), &mut words);
    print_loaded(&rt, loaded, &words);
}
