// A burst of records, as a post carries it and as a handler keeps it: eight words, event and data in turn.
ghost use Rattle.std.specs.Prelude.{◌≤◌, ltb, ◌≡◌};
ghost use Rattle.model.specs.Accepted.{Contents};
ghost use Rattle.model.specs.Burst.{carried, burst_words, events_rule};
ghost use Rattle.model.specs.Test.{pick};

use model::Refusal;

// "8 at its first bad event (place: position from 0)", of so many records.
#[tactic(auto, using(crate::proofs::Bursts::by_event))]
pub fn events(program: &[u16], burst: &[u16; 8], length: u16) -> Result<(), Refusal>
    requires contents { Contents program.now }
    requires length_len_bound { length ≤ 4 }
    ensures { result ≡ events_rule program.now 0 (carried burst.now length) }
{
    for position in 0..length {
        if burst[2 * (position as usize)] >= program[2] {
            return Err(Refusal::NoEvent(position));
        }
    }
    Ok(())
}

// A word of a record, or 0 behind the last one.
#[tactic(auto, using(model::proofs::TestLaws::tests), unfolding(model::specs::Test::pick))]
fn kept(word: u16, number: u16, length: u16) -> u16
    ensures { result ≡ pick (ltb number length) word 0 }
{
    if number < length { word } else { 0 }
}

// The words of so many records, 0 behind them.
pub fn words(burst: &[u16; 8], length: u16) -> [u16; 8]
    requires { length ≤ 4 }
    ensures { result ≡ burst_words (carried burst.now length) }
{
    [
        kept(burst[0], 0, length),
        kept(burst[1], 0, length),
        kept(burst[2], 1, length),
        kept(burst[3], 1, length),
        kept(burst[4], 2, length),
        kept(burst[5], 2, length),
        kept(burst[6], 3, length),
        kept(burst[7], 3, length),
    ]
}
