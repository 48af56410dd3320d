// A line of the schedule: its bytes as they come, and the call that it is.
ghost use Rattle.std.specs.Prelude.{ℕ, length, take, List, ◌≡◌};
ghost use Rattle.sheet.specs.Sheet.{letter, posting, post_of, scheduled};
ghost use Rattle.sheet.specs.Inside.{call_of, HoldsByte};
ghost use Rattle.sheet.specs.Printed.{holding};

use crate::{Scheduled, State};
use text::hex::digit;

#[tactic(auto, using(model::proofs::TestLaws::tests), unfolding(crate::specs::Sheet::letter, model::specs::Test::pick))]
fn letter(byte: u8) -> Option<Scheduled>
    ensures { call_of result ≡ letter byte }
{
    match byte {
        b'b' => Some(Scheduled::Boot),
        b's' => Some(Scheduled::Step),
        b'c' => Some(Scheduled::Cut),
        _ => None,
    }
}

// The post of its digits.
#[tactic(auto, using(model::proofs::TestLaws::tests), unfolding(crate::specs::Sheet::posting, model::specs::Test::pick, model::specs::Test::both))]
fn posting(event: u16, first: u16, second: u16, third: u16, fourth: u16) -> Option<Scheduled>
    ensures { call_of result ≡ posting event first second third fourth }
{
    if event > 15 || first > 15 || second > 15 || third > 15 || fourth > 15 {
        return None;
    }
    Some(Scheduled::Post(event, 4096 * first + 256 * second + 16 * third + fourth))
}

// "p, an event digit and four data digits"
#[tactic(auto, using(model::proofs::TestLaws::tests), unfolding(crate::specs::Sheet::post_of, model::specs::Test::pick))]
fn post_of(line: &[u8]) -> Option<Scheduled>
    requires { length line.now ≡ 6 }
    ensures { call_of result ≡ post_of line.now }
{
    if line[0] != b'p' {
        return None;
    }
    posting(
        digit(line[1]),
        digit(line[2]),
        digit(line[3]),
        digit(line[4]),
        digit(line[5]),
    )
}

#[tactic(auto, using(model::proofs::TestLaws::tests), unfolding(crate::specs::Sheet::scheduled, model::specs::Test::pick))]
fn read(line: &[u8]) -> Option<Scheduled>
    ensures { call_of result ≡ scheduled line.now }
{
    match line.len() {
        1 => letter(line[0]),
        6 => post_of(line),
        _ => None,
    }
}

// The call of the bytes that are held.
pub fn held(line: &[u8], count: usize) -> Option<Scheduled>
    ensures { call_of result ≡ scheduled (take count line.now) }
{
    read(&line[..count.min(line.len())])
}

// One byte more of the line. Seven bytes are no call, whatever follows.
pub fn hold(byte: u8, state: State) -> State
    ensures { (s : List ℕ) → HoldsByte byte (holding state s) (holding result s) }
{
    let held = state.held;
    if held >= 7 {
        return state;
    }
    let mut line = state.line;
    line[held] = byte;
    State {
        line,
        held: held + 1,
        ..state
    }
}
