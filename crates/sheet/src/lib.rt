// Exam sheets from a schedule. A host loads program.img and learns how many words a store has (crate image); these it lends twice, for the
// store and for a copy of it, and a text. `begin` prints the sheet's first lines into the text, `feed` those of the bytes of the schedule that
// it takes, `finish` that of a last line without a line feed; the host writes the text out each time. That the texts, one behind the other,
// are the sheet is said in specs/Printed.antt. No call has a `requires`.

#![tactic(auto)]

mod calls;
mod printing;
mod schedule;

ghost use Rattle.std.specs.Prelude.{◌+◌, ◌≤◌, ◌<◌, length, take};
ghost use Rattle.sheet.specs.Inside.{TakesByte};
ghost use Rattle.sheet.specs.Printed.{holding, Ready, Fits, Begins, Feeds, Finishes};

use model::{Device, Refusal};
use store::format;
use text::put;

// The most bytes of a sheet's line: a call's number, 1024 words, a line feed.
const LONGEST: usize = 5141;

// A line of the schedule that can be read: a post has an event and its data.
#[derive(Clone, Copy)]
pub enum Scheduled {
    Boot,
    Step,
    Cut,
    Post(u16, u16),
}

// What is held between two bytes of the schedule, beside the store: the device, the next call's number, the bytes of its line so far (of seven
// and more seven are held; nothing is allocated here, and C lends what is), and whether the sheet has ended.
#[derive(Clone, Copy)]
pub struct State {
    pub device: Device,
    pub number: u64,
    pub line: [u8; 7],
    pub held: usize,
    pub ended: bool,
}

// The state after a call, and where its line ends in the text.
#[derive(Clone, Copy)]
pub struct Printed {
    pub state: State,
    pub end: usize,
}

// The state after bytes of the schedule: how many were taken, and how many bytes of text they printed.
#[derive(Clone, Copy)]
pub struct Fed {
    pub state: State,
    pub taken: usize,
    pub written: usize,
}

// The header, and of a program that the check refuses the line with call 0.
pub fn begin(
    checked: Result<(), Refusal>,
    program: &[u16],
    store: &mut [u16],
    text: &mut [u8; 65536],
) -> Printed
    ensures end_bound { result.end ≤ 65536 }
    ensures begins { Fits checked program.now (length store.old)
        → Begins checked program.now (length store.old) (take result.end text.new)
        (holding result.state store.new) }
{
    let end = put(text, 0, b"call memory\n");
    let Ok(()) = checked else {
        let end = printing::check_line(text, end, checked);
        return Printed {
            state: calls::start(true),
            end,
        };
    };
    let _ = format::format(program, 1, 1, store);
    Printed {
        state: calls::start(false),
        end,
    }
}

// One byte of the schedule.
fn take(
    program: &[u16],
    store: &mut [u16],
    copy: &mut [u16],
    text: &mut [u8],
    at: usize,
    byte: u8,
    state: State,
) -> Printed
    requires { at + 5141 ≤ length text.old }
    ensures { TakesByte program.now (length copy.old) byte
        (holding state store.old) text.old at
        (holding result.state store.new) text.new result.end }
{
    if state.ended {
        return Printed { state, end: at };
    }
    if byte == b'\n' {
        return calls::line(program, store, copy, text, at, state);
    }
    Printed {
        state: schedule::hold(byte, state),
        end: at,
    }
}

// Bytes of the schedule, as far as there is room for a line in the text.
pub fn feed(
    program: &[u16],
    store: &mut [u16],
    copy: &mut [u16],
    text: &mut [u8; 65536],
    bytes: &[u8],
    state: State,
) -> Fed
    ensures written_bound { (result.written ≤ 65536) × (result.taken ≤ length bytes.now) }
    ensures taken_nonzero { 0 < length bytes.now → 0 < result.taken }
    ensures feeds { Ready program.now (holding state store.old) (length copy.old)
        → Feeds program.now (length copy.old) (holding state store.old)
        (take result.taken bytes.now) (take result.written text.new)
        (holding result.state store.new) }
{
    let mut now = state;
    let mut written = 0;
    for (taken, byte) in bytes.iter().enumerate() {
        if written > 65536 - LONGEST {
            return Fed {
                state: now,
                taken,
                written,
            };
        }
        let printed = take(program, store, copy, text, written, *byte, now);
        now = printed.state;
        written = printed.end;
    }
    Fed {
        state: now,
        taken: bytes.len(),
        written,
    }
}

// The end of the schedule: "the last line feed may be missing". How many bytes of text it prints.
pub fn finish(
    program: &[u16],
    store: &mut [u16],
    copy: &mut [u16],
    text: &mut [u8; 65536],
    state: State,
) -> usize
    ensures upper_bound { result ≤ 65536 }
    ensures finishes { Finishes program.now (length copy.old)
        (holding state store.old) (take result text.new) }
{
    if state.ended {
        return 0;
    }
    if state.held == 0 {
        return 0;
    }
    calls::line(program, store, copy, text, 0, state).end
}
