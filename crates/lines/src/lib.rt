// Line tables, in which a maker says which event an interrupt line posts at which level: the check of a table (30, 31, 32), and raising
// a line. A table is lent words, four to a row. rows.rt has refusal 30, levels.rt 31 and 32.
// What a host calls refuses what it must: none has a `requires`.

#![tactic(auto)]

ghost use Rattle.std.specs.Prelude.{◌≡◌, eqb, Ok, Some, None};
ghost use Rattle.model.specs.Test.{pick};
ghost use Rattle.lines.specs.Lines.{check, event_of, no_event, posting, raise};
ghost use Rattle.lines.specs.Inside.{Whole};

use device::calls;
use model::{Answer, Device, Refusal};

mod levels;
mod rows;

use levels::Table;

// What raising a line answers, and the device after it: none where nothing is posted; else as the post does, or the table's check where it refuses.
#[derive(Clone, Copy)]
pub struct RaiseResult {
    pub answer: Option<Answer>,
    pub device: Device,
}

// The check of a table: 30, then 31 over all lines, then 32.
#[tactic(auto, using(model::proofs::TestLaws::in_a_row, crate::proofs::RowLaws::gives), unfolding(crate::specs::Lines::check))]
pub fn check(table: &[u16]) -> Result<(), Refusal>
    ensures value { result ≡ check table.now }
    ensures given { result ≡ Ok tt → Whole table.now }
{
    rows::rules(table)?;
    let table = Table { words: table };
    if table.in_order() {
        return Ok(());
    }
    table.gaps()?;
    table.overlaps()
}

// What raising a line posts, if anything. The table is checked first, and nothing but the table is looked at.
#[tactic(auto, unfolding(crate::specs::Lines::posting, crate::specs::Lines::posting_of, model::specs::Test::pick))]
pub fn posting_of(table: &[u16], line: u16, level: u16) -> Result<Option<u16>, Refusal>
    ensures { result ≡ posting table.now line level }
{
    check(table)?;
    Ok(Table { words: table }.event_of(line, level))
}

// Raising a line at a level: a post of the event that the table has for it, with the level as data.
#[tactic(auto, unfolding(crate::specs::Lines::raise, crate::specs::Lines::raise_of))]
pub fn raise(
    program: &[u16],
    store: &[u16],
    device: Device,
    table: &[u16],
    line: u16,
    level: u16,
) -> RaiseResult
    ensures { result ≡ raise program.now store.now device table.now line level }
{
    match posting_of(table, line, level) {
        Err(why) => RaiseResult {
            answer: Some(Answer::Refused(why)),
            device,
        },
        Ok(None) => RaiseResult {
            answer: None,
            device,
        },
        Ok(Some(event)) => {
            let result = calls::post(program, store, device, event, level);
            RaiseResult {
                answer: Some(result.answer),
                device: result.device,
            }
        }
    }
}
