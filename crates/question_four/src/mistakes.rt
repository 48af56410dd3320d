// The blackboard's mistakes, each made around the runtime's own step: words that the step reads are changed before it, or words that it
// stored after it. A mistaken device keeps something beside its state, which a cut loses, too.
use super::node::Node;
use super::{node, words};
use model::Answer;

#[derive(Clone, Copy)]
pub enum Mistake {
    HeadPlusOneOnRedo,
    TailBeforeData,
    PhaseBeforeTask,
    CountFromLostState,
    EventInOpenTransaction,
}

#[derive(Clone, Copy, Default)]
pub struct Kept {
    // The phase was cleared too early; the stores that it should have followed are still to be made.
    pub early: bool,
    // Tail was stored too early: the data to be stored after it.
    pub datum: Option<u16>,
    // The log count, and the open number.
    pub count: u16,
    pub open: u16,
}

pub fn step(program: &[u16], store: &mut [u16], node: Node, mistake: Option<Mistake>) -> Node {
    match mistake {
        None => node::step(program, store, node),
        Some(Mistake::HeadPlusOneOnRedo) => head_plus_one(program, store, node),
        Some(Mistake::TailBeforeData) => tail_before_data(program, store, node),
        Some(Mistake::PhaseBeforeTask) => phase_before_task(program, store, node),
        Some(Mistake::CountFromLostState) => lost_count(program, store, node),
        Some(Mistake::EventInOpenTransaction) => lost_open(program, store, node),
    }
}

// Two words become what a mistaken step leaves in them.
fn two(store: &mut [u16], first: u16, word: u16, second: u16, other: u16) {
    words::set(store, first, word);
    words::set(store, second, other);
}

// The node with another answer and another word told.
fn instead(node: Node, answer: Answer, index: u16, kept: Kept) -> Node {
    Node {
        answer,
        stored: Some(index),
        kept,
        ..node
    }
}

// Redoing an event's commit by adding one to head: in phase 2 the new head is the slot after head, whatever word 12 is.
fn head_plus_one(program: &[u16], store: &mut [u16], node: Node) -> Node {
    if words::phase(store) != 2 {
        return node::step(program, store, node);
    }
    let pending = words::word(store, 12);
    let head = words::head(store);
    let next = if head == words::tail(store) {
        head
    } else {
        words::slot_after(store, head)
    };
    words::set(store, 12, next);
    let left = node::step(program, store, node);
    words::set(store, 12, pending);
    left
}

// Storing tail before data: where the handler stores data, that is put back and tail is stored; then, in tail's place, data.
fn tail_before_data(program: &[u16], store: &mut [u16], node: Node) -> Node {
    if let Some(datum) = node.kept.datum {
        return data_after_tail(program, store, node, datum);
    }
    let tail = words::tail(store);
    let index = words::data_word(store, tail);
    let stale = words::word(store, index);
    let left = node::step(program, store, node);
    if left.stored != Some(index) {
        return left;
    }
    let kept = Kept {
        datum: Some(words::word(store, index)),
        ..left.kept
    };
    two(store, index, stale, 15, words::slot_after(store, tail));
    instead(left, Answer::Accepted(None), 15, kept)
}

fn data_after_tail(program: &[u16], store: &mut [u16], node: Node, datum: u16) -> Node {
    let slot = words::slot_before(store, words::tail(store));
    words::set(store, 15, slot);
    let left = node::step(program, store, node);
    let index = words::data_word(store, slot);
    words::set(store, index, datum);
    let kept = Kept {
        datum: None,
        ..left.kept
    };
    instead(left, Answer::Stored, index, kept)
}

// The node after a store to this word, with the phase cleared too early or no more.
fn stored(node: Node, index: u16, early: bool) -> Node {
    let kept = Kept { early, ..node.kept };
    instead(node, Answer::Stored, index, kept)
}

// With the phase cleared, words 9 and 10 are stored, each in the place of the store behind it, which is put back.
fn task_after_phase(store: &mut [u16], open: u16) {
    two(store, 9, words::word(store, 12), 10, open);
    words::set(store, 8, 0);
}

fn open_after_phase(store: &mut [u16], begun: u16) {
    two(store, 10, words::word(store, 13), 16, begun);
    words::set(store, 8, 0);
}

// Clearing the phase before word 9: a task's commit ends with words 8, 9, 10 and 16, and not with 9, 10, 16 and 8.
fn phase_before_task(program: &[u16], store: &mut [u16], node: Node) -> Node {
    let early = node.kept.early;
    let task = words::word(store, 9);
    let open = words::word(store, 10);
    let begun = words::word(store, 16);
    if early {
        words::set(store, 8, 1);
    }
    let left = node::step(program, store, node);
    match left.stored {
        Some(9) => {
            two(store, 9, task, 8, 0);
            stored(left, 8, true)
        }
        _ if !early => left,
        Some(10) => {
            task_after_phase(store, open);
            stored(left, 9, true)
        }
        Some(16) => {
            open_after_phase(store, begun);
            stored(left, 10, true)
        }
        _ => {
            words::set(store, 16, 0);
            stored(left, 16, false)
        }
    }
}

// Taking the log count at recovery from lost state, not word 11: after a cut it is 0.
fn lost_count(program: &[u16], store: &mut [u16], node: Node) -> Node {
    let count = words::word(store, 11);
    if words::phase(store) != 0 {
        words::set(store, 11, node.kept.count);
        let left = node::step(program, store, node);
        words::set(store, 11, count);
        return left;
    }
    let mut left = node::step(program, store, node);
    if let Answer::Committed(_) = left.answer {
        left.kept.count = words::word(store, 11);
    }
    left
}

// Serving an event after a cut inside an open transaction: the open number is taken from lost state, not word 10.
fn lost_open(program: &[u16], store: &mut [u16], node: Node) -> Node {
    let open = words::word(store, 10);
    words::set(store, 10, node.kept.open);
    let mut left = node::step(program, store, node);
    if left.stored == Some(10) {
        left.kept.open = words::word(store, 10);
        return left;
    }
    words::set(store, 10, open);
    left
}
