// The cells of a row, each as wide as its column.
use super::node::{Call, Node};
use super::{node, text, words};
use model::{Answer, Body, Device, Handler, Place};
use std::io;

// At a step, which so many precede, its number; in a column of three.
pub fn number(out: &impl Print, before: u32, call: Call) -> io::Result<()> {
    if call != Call::Step {
        return text::spaces(out, 3);
    }
    text::two(out, node::one_more(before))?;
    text::spaces(out, 1)
}

// A call, in a column of `width`.
pub fn call(out: &impl Print, call: Call, width: u16) -> io::Result<()> {
    match call {
        Call::Boot => {
            text::put(out, b"boot")?;
            text::rest(out, 4, width)
        }
        Call::Step => {
            text::put(out, b"step")?;
            text::rest(out, 4, width)
        }
        Call::Cut => {
            text::put(out, b"cut")?;
            text::rest(out, 3, width)
        }
        Call::Post(datum) => {
            text::put(out, b"post ")?;
            text::decimal(out, datum as u32)?;
            text::rest(out, 6, width)
        }
    }
}

// A task or an event, in a column of two.
pub fn body(out: &impl Print, body: Body) -> io::Result<()> {
    match body {
        Body::Task(task) => {
            text::put(out, b"T")?;
            text::decimal(out, task as u32)
        }
        Body::Event(event) => {
            text::put(out, b"E")?;
            text::decimal(out, event as u32)
        }
    }
}

// An answer, in a column of twelve.
pub fn answer(out: &impl Print, answer: Answer) -> io::Result<()> {
    match answer {
        Answer::Done => text::put(out, b"done        "),
        Answer::Chosen(chosen) => {
            text::put(out, b"chosen ")?;
            body(out, chosen)?;
            text::spaces(out, 3)
        }
        Answer::Worked => text::put(out, b"worked      "),
        Answer::Stored => text::put(out, b"stored      "),
        Answer::Committed(committed) => {
            text::put(out, b"committed ")?;
            body(out, committed)
        }
        Answer::Accepted(_) => text::put(out, b"accepted    "),
        Answer::Refused(_) => text::put(out, b"refused     "),
    }
}

// An opcode's mnemonic, in a column of seven.
fn mnemonic(out: &impl Print, opcode: u16) -> io::Result<()> {
    match opcode {
        0 => text::put(out, b"SET    "),
        1 => text::put(out, b"MOV    "),
        2 => text::put(out, b"ADD    "),
        3 => text::put(out, b"SUB    "),
        4 => text::put(out, b"AND    "),
        5 => text::put(out, b"OR     "),
        6 => text::put(out, b"XOR    "),
        7 => text::put(out, b"SHR    "),
        8 => text::put(out, b"LOAD   "),
        9 => text::put(out, b"SAVE   "),
        10 => text::put(out, b"LOADX  "),
        11 => text::put(out, b"SAVEX  "),
        12 => text::put(out, b"JUMP   "),
        13 => text::put(out, b"JZ     "),
        14 => text::put(out, b"JLT    "),
        15 => text::put(out, b"GO     "),
        16 => text::put(out, b"DONE   "),
        _ => text::put(out, b"?      "),
    }
}

// The mnemonic of a body's instruction.
fn instruction(out: &impl Print, program: &[u16], body: Body, at: u16) -> io::Result<()> {
    let number = match body {
        Body::Task(task) => task as u32,
        Body::Event(event) => words::word(program, 1) as u32 + event as u32,
    };
    let row = (6 + 3 * (number % 65536)) % 65536;
    let place = (words::word(program, row as u16) as u32 + 2 * (at as u32)) % 65536;
    mnemonic(out, words::word(program, place as u16) / 256)
}

// What a step runs, in a column of seven.
fn step_runs(out: &impl Print, program: &[u16], store: &[u16], device: Device) -> io::Result<()> {
    match device.handler {
        Handler::Resting => place_runs(out, program, store, device.place),
        _ => text::put(out, b"handler"),
    }
}

fn place_runs(out: &impl Print, program: &[u16], store: &[u16], place: Place) -> io::Result<()> {
    match place {
        Place::Free(_) if words::phase(store) == 0 => text::put(out, b"choose "),
        Place::Free(_) => text::put(out, b"commit "),
        Place::Run(body, at, _) | Place::Half(body, at) => instruction(out, program, body, at),
    }
}

// What a call runs, in a column of eight.
pub fn runs(
    out: &impl Print,
    program: &[u16],
    store: &[u16],
    device: Device,
    name: Call,
) -> io::Result<()> {
    if name != Call::Step {
        return call(out, name, 8);
    }
    step_runs(out, program, store, device)?;
    text::spaces(out, 1)
}

// Does an event run?
fn serving(device: Device) -> bool {
    matches!(device.place, Place::Run(Body::Event(_), _, _))
}

// Word 12 is a commit's next task, or an event's next head.
fn pending(out: &impl Print, device: Device) -> io::Result<()> {
    if serving(device) {
        return text::put(out, b"pending head");
    }
    text::put(out, b"pending task")
}

// A word of memory, of the log's one pair, or of the ring.
fn part_name(out: &impl Print, store: &[u16], index: u16) -> io::Result<()> {
    let memory = words::word(store, 5);
    let log = words::word(store, 6);
    let queue = words::word(store, 7);
    if index >= queue {
        return slot_name(out, index - queue);
    }
    if index > log {
        return text::put(out, b"log value   ");
    }
    if index == log {
        return text::put(out, b"log address ");
    }
    text::put(out, b"memory ")?;
    if index >= memory {
        text::decimal(out, (index - memory) as u32)?;
    }
    text::spaces(out, 4)
}

fn slot_name(out: &impl Print, at: u16) -> io::Result<()> {
    text::put(out, b"slot ")?;
    text::decimal(out, (at / 2) as u32)?;
    if at % 2 == 0 {
        text::put(out, b" event")
    } else {
        text::put(out, b" data ")
    }
}

// A word's name, in a column of twelve.
fn name(out: &impl Print, store: &[u16], device: Device, index: u16) -> io::Result<()> {
    match index {
        8 => text::put(out, b"phase       "),
        9 => text::put(out, b"current task"),
        10 => text::put(out, b"open number "),
        11 => text::put(out, b"count       "),
        12 => pending(out, device),
        13 => text::put(out, b"pending open"),
        14 => text::put(out, b"head        "),
        15 => text::put(out, b"tail        "),
        16 => text::put(out, b"begun       "),
        _ => part_name(out, store, index),
    }
}

// The word that a call stored, with its value. A word is a column of 20, nothing is one of `width`.
pub fn stored(
    out: &impl Print,
    store: &[u16],
    device: Device,
    stored: Option<u16>,
    width: u16,
) -> io::Result<()> {
    match stored {
        None => {
            text::put(out, b"-")?;
            text::rest(out, 1, width)
        }
        Some(index) => {
            text::two(out, index as u32)?;
            text::put(out, b" ")?;
            name(out, store, device, index)?;
            text::put(out, b" ")?;
            text::hex(out, words::word(store, index))
        }
    }
}

// What a call answered, and what it stored.
pub fn performed(out: &impl Print, store: &[u16], node: Node, width: u16) -> io::Result<()> {
    answer(out, node.answer)?;
    text::put(out, b" ")?;
    stored(out, store, node.device, node.stored, width)
}

// Two words of memory, in a column of nine.
pub fn memory(out: &impl Print, store: &[u16]) -> io::Result<()> {
    text::hex(out, words::memory(store, 0))?;
    text::put(out, b" ")?;
    text::hex(out, words::memory(store, 1))
}

// The waiting record, in a column of `width`. One at most waits where this is shown.
pub fn waiting(out: &impl Print, store: &[u16], width: u16) -> io::Result<()> {
    let Some((event, datum)) = words::waiting(store) else {
        text::put(out, b"none")?;
        return text::rest(out, 4, width);
    };
    text::put(out, b"E")?;
    text::decimal(out, event as u32)?;
    text::put(out, b" ")?;
    text::hex(out, datum)?;
    text::rest(out, 7, width)
}
