// A node: the device with what its latest call answered and stored.
use super::mistakes;
use super::mistakes::{Kept, Mistake};
use device::{CallResult, calls};
use model::{Answer, Device};

// A call of a list. A post is of event 0 with this data.
#[derive(Clone, Copy, PartialEq, Eq, Debug)]
pub enum Call {
    Boot,
    Step,
    Cut,
    Post(u16),
}

impl Call {
    // The call of a character: b boot, s step, c cut, and a digit for a post.
    pub fn named(character: u8) -> Call {
        match character {
            b'b' => Call::Boot,
            b's' => Call::Step,
            b'c' => Call::Cut,
            digit => Call::Post(digit.saturating_sub(b'0') as u16),
        }
    }
}

#[derive(Clone, Copy)]
pub struct Node {
    pub answer: Answer,
    pub stored: Option<u16>,
    pub device: Device,
    // How many steps were made.
    pub steps: u32,
    // What a mistaken device keeps beside its state.
    pub kept: Kept,
}

pub fn off() -> Node {
    Node {
        answer: Answer::Done,
        stored: None,
        device: Device::OFF,
        steps: 0,
        kept: Kept::default(),
    }
}

// The node after a call that left this.
pub fn after(node: Node, left: CallResult) -> Node {
    Node {
        answer: left.answer,
        stored: left.stored,
        device: left.device,
        ..node
    }
}

// The runtime's own step.
pub fn step(program: &[u16], store: &mut [u16], node: Node) -> Node {
    after(node, runtime::step(program, store, node.device))
}

// Steps are counted up to 99.
pub fn one_more(steps: u32) -> u32 {
    if steps < 99 { steps + 1 } else { steps }
}

pub fn make(
    program: &[u16],
    store: &mut [u16],
    node: Node,
    call: Call,
    mistake: Option<Mistake>,
) -> Node {
    match call {
        Call::Boot => after(node, calls::boot(program, store, node.device)),
        Call::Step => {
            let counted = Node {
                steps: one_more(node.steps),
                ..node
            };
            mistakes::step(program, store, counted, mistake)
        }
        Call::Cut => Node {
            kept: Kept::default(),
            ..after(node, calls::cut())
        },
        Call::Post(datum) => after(node, calls::post(program, store, node.device, 0, datum)),
    }
}

// Calls that aren't shown.
pub fn all_calls(
    program: &[u16],
    store: &mut [u16],
    first: Node,
    calls: &[u8],
    mistake: Option<Mistake>,
) -> Node {
    let mut node = first;
    for name in calls {
        node = make(program, store, node, Call::named(*name), mistake);
    }
    node
}
