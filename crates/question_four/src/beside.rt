// The right run beside a mistaken one: the same calls on two stores. A bar stands where they differ.
use super::mistakes::Mistake;
use super::node::{Call, Node};
use super::{cells, listed, node, text, words};
use model::{Answer, Body, Record};
use std::io;

#[derive(Clone, Copy)]
pub struct Runs {
    pub right: Node,
    pub mistaken: Node,
}

fn bodies_differ(right: Body, mistaken: Body) -> bool {
    match (right, mistaken) {
        (Body::Task(right), Body::Task(mistaken)) => right != mistaken,
        (Body::Event(right), Body::Event(mistaken)) => right != mistaken,
        _ => true,
    }
}

// The records that were dropped, if any were.
fn dropped_differ(right: Option<Record>, mistaken: Option<Record>) -> bool {
    match (right, mistaken) {
        (None, None) => false,
        (Some(right), Some(mistaken)) => {
            right.event != mistaken.event || right.datum != mistaken.datum
        }
        _ => true,
    }
}

// Refusals are shown without their reasons.
fn answers_differ(right: Answer, mistaken: Answer) -> bool {
    match (right, mistaken) {
        (Answer::Done, Answer::Done) => false,
        (Answer::Worked, Answer::Worked) => false,
        (Answer::Stored, Answer::Stored) => false,
        (Answer::Refused(_), Answer::Refused(_)) => false,
        (Answer::Chosen(right), Answer::Chosen(mistaken)) => bodies_differ(right, mistaken),
        (Answer::Committed(right), Answer::Committed(mistaken)) => bodies_differ(right, mistaken),
        (Answer::Accepted(right), Answer::Accepted(mistaken)) => dropped_differ(right, mistaken),
        _ => true,
    }
}

// The word that was stored, with its value.
fn stored(store: &[u16], index: Option<u16>) -> Option<(u16, u16)> {
    index.map(|index| (index, words::word(store, index)))
}

fn bar(out: &impl Print, differ: bool) -> io::Result<()> {
    if differ {
        text::put(out, b" | ")
    } else {
        text::put(out, b"   ")
    }
}

fn differ(right_store: &[u16], mistaken_store: &[u16], right: Node, mistaken: Node) -> bool {
    answers_differ(right.answer, mistaken.answer)
        || stored(right_store, right.stored) != stored(mistaken_store, mistaken.stored)
}

// What a call answered and stored, in both runs.
fn performed(
    out: &impl Print,
    right_store: &[u16],
    mistaken_store: &[u16],
    right: Node,
    mistaken: Node,
) -> io::Result<()> {
    cells::performed(out, right_store, right, 20)?;
    bar(out, differ(right_store, mistaken_store, right, mistaken))?;
    cells::performed(out, mistaken_store, mistaken, 1)?;
    text::put(out, b"\n")
}

// One row.
fn row(
    out: &impl Print,
    program: &[u16],
    right_store: &mut [u16],
    mistaken_store: &mut [u16],
    before: Runs,
    call: Call,
    mistake: Mistake,
) -> io::Result<Runs> {
    let right = node::make(program, right_store, before.right, call, None);
    let mistaken = node::make(
        program,
        mistaken_store,
        before.mistaken,
        call,
        Some(mistake),
    );
    cells::number(out, before.right.steps, call)?;
    cells::call(out, call, 7)?;
    performed(out, right_store, mistaken_store, right, mistaken)?;
    Ok(Runs { right, mistaken })
}

fn rows(
    out: &impl Print,
    program: &[u16],
    right_store: &mut [u16],
    mistaken_store: &mut [u16],
    first: Runs,
    calls: &[u8],
    mistake: Mistake,
) -> io::Result<Runs> {
    let mut runs = first;
    for name in calls {
        let call = Call::named(*name);
        runs = row(
            out,
            program,
            right_store,
            mistaken_store,
            runs,
            call,
            mistake,
        )?;
    }
    Ok(runs)
}

fn memory(out: &impl Print, right: &[u16], mistaken: &[u16]) -> io::Result<()> {
    text::put(out, b"memory    ")?;
    cells::memory(out, right)?;
    text::spaces(out, 24)?;
    let differ = (0..2).any(|address| words::memory(right, address)
        != words::memory(mistaken, address));
    bar(out, differ)?;
    cells::memory(out, mistaken)?;
    text::put(out, b"\n")
}

fn head(out: &impl Print, right: &[u16], mistaken: &[u16]) -> io::Result<()> {
    text::put(out, b"head      ")?;
    text::decimal(out, words::head(right) as u32)?;
    text::spaces(out, 32)?;
    bar(out, words::head(right) != words::head(mistaken))?;
    text::decimal(out, words::head(mistaken) as u32)?;
    text::put(out, b"\n")
}

fn waiting(out: &impl Print, right: &[u16], mistaken: &[u16]) -> io::Result<()> {
    text::put(out, b"waiting   ")?;
    cells::waiting(out, right, 33)?;
    bar(out, words::waiting(right) != words::waiting(mistaken))?;
    cells::waiting(out, mistaken, 0)?;
    text::put(out, b"\n")
}

// Calls that aren't shown, in both runs.
fn calls(
    program: &[u16],
    right_store: &mut [u16],
    mistaken_store: &mut [u16],
    runs: Runs,
    calls: &[u8],
    mistake: Mistake,
) -> Runs {
    Runs {
        right: node::all_calls(program, right_store, runs.right, calls, None),
        mistaken: node::all_calls(program, mistaken_store, runs.mistaken, calls, Some(mistake)),
    }
}

// What the calls leave.
fn left(out: &impl Print, right: &[u16], mistaken: &[u16]) -> io::Result<()> {
    memory(out, right, mistaken)?;
    head(out, right, mistaken)?;
    waiting(out, right, mistaken)
}

// The calls before the first row, in rows, and behind the last.
#[derive(Clone, Copy)]
pub struct Lists<'a> {
    pub before: &'a [u8],
    pub shown: &'a [u8],
    pub behind: &'a [u8],
}

// The calls in rows, and those behind the last.
fn table(
    out: &impl Print,
    program: &[u16],
    right: &mut [u16],
    mistaken: &mut [u16],
    first: Runs,
    mistake: Mistake,
    lists: Lists<'_>,
) -> io::Result<()> {
    text::line(
        out,
        b"          right                               mistaken",
    )?;
    text::line(
        out,
        b" # call   answers      stores                 answers      stores",
    )?;
    let last = rows(out, program, right, mistaken, first, lists.shown, mistake)?;
    let _ = calls(program, right, mistaken, last, lists.behind, mistake);
    listed::behind(out, lists.behind)?;
    left(out, right, mistaken)
}

// Calls before the first row, in rows, and behind the last, on two stores.
pub fn beside(
    out: &impl Print,
    program: &[u16],
    right: &mut [u16],
    mistaken: &mut [u16],
    mistake: Mistake,
    lists: Lists<'_>,
) -> io::Result<()> {
    let off = Runs {
        right: node::off(),
        mistaken: node::off(),
    };
    let first = calls(program, right, mistaken, off, lists.before, mistake);
    listed::before(out, lists.before)?;
    table(out, program, right, mistaken, first, mistake, lists)
}
