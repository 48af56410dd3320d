// One run, cut at each point: a row for each call, with what uncut recovery would leave if power were cut after it.
use super::node::{Call, Node};
use super::{cells, listed, node, text, words};
use model::{Answer, Place};
use std::io;
use store::format;

// The body that runs after recovery: the one that the boot took up, or else the one that the next step chooses.
fn next_body(
    out: &impl Print,
    program: &[u16],
    store: [u16; 25],
    recovered: Node,
) -> io::Result<()> {
    if let Place::Run(body, _, _) = recovered.device.place {
        return cells::body(out, body);
    }
    let mut copy = store;
    let next = node::step(program, &mut copy, recovered);
    if let Answer::Chosen(body) = next.answer {
        cells::body(out, body)?;
    }
    Ok(())
}

// What is left of recovery's store: the memory, the waiting record, and the body that runs next.
fn left(out: &impl Print, program: &[u16], store: [u16; 25], recovered: Node) -> io::Result<()> {
    text::two(out, recovered.steps)?;
    text::put(out, b" ")?;
    cells::memory(out, &store)?;
    text::put(out, b" ")?;
    cells::waiting(out, &store, 7)?;
    text::put(out, b" ")?;
    next_body(out, program, store, recovered)?;
    text::put(out, b"\n")
}

// Uncut recovery of a copy of the store: a cut, a boot, then steps while the phase isn't 0.
fn recovered(out: &impl Print, program: &[u16], store: [u16; 25]) -> io::Result<()> {
    let mut copy = store;
    let mut node = node::make(program, &mut copy, node::off(), Call::Boot, None);
    for _ in 0..99u16 {
        if words::phase(&copy) == 0 {
            break;
        }
        node = node::make(program, &mut copy, node, Call::Step, None);
    }
    left(out, program, copy, node)
}

// Phase and open number.
fn control(out: &impl Print, store: &[u16]) -> io::Result<()> {
    text::put(out, b" ")?;
    text::two(out, words::phase(store) as u32)?;
    text::put(out, b" ")?;
    text::two(out, words::word(store, 10) as u32)?;
    text::spaces(out, 5)
}

// What a call answers and stores, phase and open number after it, and what recovery would leave.
fn done(out: &impl Print, program: &[u16], store: &[u16; 25], node: Node) -> io::Result<()> {
    cells::performed(out, store, node, 20)?;
    control(out, store)?;
    recovered(out, program, *store)
}

fn row(
    out: &impl Print,
    program: &[u16],
    store: &mut [u16; 25],
    before: Node,
    call: Call,
) -> io::Result<Node> {
    cells::number(out, before.steps, call)?;
    cells::runs(out, program, store, before.device, call)?;
    let node = node::make(program, store, before, call, None);
    done(out, program, store, node)?;
    Ok(node)
}

fn rows(
    out: &impl Print,
    program: &[u16],
    store: &mut [u16; 25],
    first: Node,
    calls: &[u8],
) -> io::Result<()> {
    let mut node = first;
    for name in calls {
        node = row(out, program, store, node, Call::named(*name))?;
    }
    Ok(())
}

// A store with L and Q 1, and a device that is off: calls that aren't shown, and calls with a row each.
pub fn table(out: &impl Print, program: &[u16], before: &[u8], calls: &[u8]) -> io::Result<()> {
    heading(out, before)?;
    let mut store = [0; 25];
    let _ = format::format(program, 1, 1, &mut store);
    let first = node::all_calls(program, &mut store, node::off(), before, None);
    rows(out, program, &mut store, first, calls)
}

fn heading(out: &impl Print, before: &[u8]) -> io::Result<()> {
    listed::before(out, before)?;
    text::line(
        out,
        b"                                                    uncut recovery would leave",
    )?;
    text::line(
        out,
        b" # runs    answers      stores               ph op  steps memory    waiting next",
    )
}
