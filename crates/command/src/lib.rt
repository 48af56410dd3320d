// The command line of the programs that read one file and write another: options, the two names, and reading and writing.

#![tactic(auto)]

ghost use Rattle.std.specs.Prelude.{◌≤◌, length};

use std::env::FillError;
use std::fs::File;
use std::io::{Error, ErrorKind, Print, Read, Write};
use std::rt::Env;
use std::{fs, io, str};

// What was asked for. The input and the output are given by the numbers of their arguments; the standard ones have none.
#[derive(Clone, Copy, Default)]
pub struct Command {
    pub help: bool,
    pub wrong: bool,
    pub verbose: bool,
    pub names: u8,
    pub input: Option<usize>,
    pub output: Option<usize>,
}

impl Command {
    // A name more: the input's, then the output's.
    fn take_name(&mut self, number: Option<usize>) {
        match self.names {
            0 => self.input = number,
            1 => self.output = number,
            _ => self.wrong = true,
        }
        self.names = (self.names.min(1)) + 1;
    }

    // An argument more, of this number.
    fn take(&mut self, number: usize, text: &[u8]) {
        if text == b"--help".as_slice() {
            self.help = true;
        } else if text == b"--verbose".as_slice() {
            self.verbose = true;
        } else if text == b"-".as_slice() {
            self.take_name(None);
        } else if text.starts_with(b"-") {
            self.wrong = true;
        } else {
            self.take_name(Some(number));
        }
    }
}

// An argument's bytes, at the start of `text`, and how many they are: none of one that is longer than there is room for.
fn argument(rt: &HostRuntime, number: usize, text: &mut [u8]) -> usize
    ensures { result ≤ length text.new }
{
    rt.arg(number, text).unwrap_or(0)
}

fn is_argument(rt: &HostRuntime, number: usize) -> bool {
    let mut text = [0u8; 4096];
    !matches!(rt.arg(number, &mut text), Err(FillError::NotPresent))
}

fn take_argument(rt: &HostRuntime, command: &mut Command, number: usize) {
    let mut text = [0u8; 4096];
    let count = argument(rt, number, &mut text);
    command.take(number, &text[..count]);
}

// The command line.
pub fn read_command(rt: &HostRuntime) -> Command {
    let mut command = Command::default();
    for number in 1..usize::MAX {
        if !is_argument(rt, number) {
            break;
        }
        take_argument(rt, &mut command, number);
    }
    command
}

// What the system says of an error, without its number.
fn message(text: &str) -> &str {
    match text.split_once(" (os error ") {
        Some((message, _)) => message,
        None => text,
    }
}

fn write_failure(rt: &HostRuntime, what: &[u8], error: &Error) -> io::Result<()> {
    let text = format!(in rt.alloc(); "{error}")?;
    Print::write_all(&rt.stderr(), what)?;
    eprintln!(rt; ": {}", message(text.as_str()))
}

// What failed, and why, to standard error. Where that can't be written, there is nowhere left to say so.
pub fn fail(rt: &HostRuntime, what: &[u8], error: &Error) {
    let _ = write_failure(rt, what, error);
}

// A file's name is text.
fn text_of(name: &[u8]) -> io::Result<&str> {
    match str::from_utf8(name) {
        Ok(text) => Ok(text),
        Err(_) => Err(Error::from(ErrorKind::InvalidFilename)),
    }
}

// What a reader gives, up to its end or as many bytes as there is room for; and whether a read failed behind these.
pub fn read_full<R: Read>(from: &mut R, bytes: &mut [u8]) -> (usize, io::Result<()>)
    ensures { result.0 ≤ length bytes.new }
{
    let mut done = 0;
    // By what a read gave, not one by one.
    while done < bytes.len() {
        match from.read(&mut bytes[done..]) {
            Ok(0) => break,
            Ok(count) => done += count,
            Err(error) => return (done, Err(error)),
        }
    }
    (done, Ok(()))
}

fn read_whole<R: Read>(from: &mut R, bytes: &mut [u8]) -> io::Result<usize> {
    let (count, outcome) = read_full(from, bytes);
    outcome?;
    Ok(count)
}

fn open_input(rt: &HostRuntime, number: usize) -> io::Result<File> {
    let mut name = [0u8; 4096];
    let count = argument(rt, number, &mut name);
    fs::open(rt, text_of(&name[..count])?)
}

fn read(rt: &HostRuntime, input: Option<usize>, bytes: &mut [u8]) -> io::Result<usize> {
    match input {
        None => read_whole(&mut rt.stdin(), bytes),
        Some(number) => {
            let mut file = open_input(rt, number)?;
            read_whole(&mut file, bytes)
        }
    }
}

// The file of this argument failed.
fn file_failed(rt: &HostRuntime, number: usize, error: &Error) {
    let mut name = [0u8; 4096];
    let count = argument(rt, number, &mut name);
    fail(rt, &name[..count], error);
}

fn input_failed(rt: &HostRuntime, input: Option<usize>, error: &Error) {
    match input {
        None => fail(rt, b"input", error),
        Some(number) => file_failed(rt, number, error),
    }
}

// The input's bytes, as many as there is room for: how many they are, or none where it can't be read, which is told.
pub fn read_input(rt: &HostRuntime, input: Option<usize>, bytes: &mut [u8]) -> Option<usize> {
    match read(rt, input, bytes) {
        Ok(count) => Some(count),
        Err(error) => {
            input_failed(rt, input, &error);
            None
        }
    }
}

fn open_output(rt: &HostRuntime, number: usize) -> io::Result<File> {
    let mut name = [0u8; 4096];
    let count = argument(rt, number, &mut name);
    fs::create(rt, text_of(&name[..count])?)
}

// Whether it was written; if not, why is told.
fn is_written(rt: &HostRuntime, outcome: io::Result<()>) -> bool {
    match outcome {
        Ok(()) => true,
        Err(error) => {
            fail(rt, b"output", &error);
            false
        }
    }
}

// Bytes to the output; whether they were written.
pub fn write_output(rt: &HostRuntime, output: Option<usize>, bytes: &[u8]) -> bool {
    let Some(number) = output else {
        return is_written(rt, Write::write_all(&mut rt.stdout(), bytes));
    };
    match open_output(rt, number) {
        Ok(mut file) => is_written(rt, file.write_all(bytes)),
        Err(error) => {
            file_failed(rt, number, &error);
            false
        }
    }
}

fn write_count(rt: &HostRuntime, count: usize, done: &[u8]) -> io::Result<()> {
    eprint!(rt; "{count} words ")?;
    Print::write_all(&rt.stderr(), done)?;
    eprintln!(rt; "")
}

// A count of words and what was done with them, to standard error.
pub fn say(rt: &HostRuntime, count: usize, done: &[u8]) {
    let _ = write_count(rt, count, done);
}
