// The single tests of 7 that a step makes, of what it uses: the record at head, word 10 and one log pair.
ghost use Rattle.std.specs.Prelude.{◌≤◌, ◌<◌, ◌≡◌};
ghost use Rattle.model.specs.Control.{obey, open_rule};
ghost use Rattle.model.specs.Device.{record_sound, pair_sound};
ghost use Rattle.model.specs.Program.{word, tasks};
ghost use Rattle.model.specs.Store.{view};
ghost use Rattle.model.specs.Accepted.{Contents, RowsInside, Shaped, ShapedFor};

use model::Refusal;
use program::rows;
use store::{log, queue};

// "a chosen record (7)", the record at head.
#[tactic(auto, using(model::proofs::TestLaws::tests), unfolding(model::specs::Device::record_sound, model::specs::Test::must))]
pub fn record_at_head(program: &[u16], store: &[u16]) -> Result<(), Refusal>
    requires contents { Contents program.now }
    requires shaped_for { ShapedFor program.now store.now }
    requires store_bound { word store.now 14 ≤ word store.now 3 }
    ensures { result ≡ record_sound program.now (view store.now) }
{
    if queue::head_event(store) >= program[2] {
        return Err(Refusal::Control(store[7] + 2 * store[14]));
    }
    Ok(())
}

// Word 10 in phase 0: "0 or the transaction number of task 9".
#[tactic(auto, using(model::proofs::TestLaws::tests), unfolding(model::specs::Control::open_rule, model::specs::Control::task_rule, model::specs::Control::obey, model::specs::Test::must, model::specs::Test::both, model::specs::Test::either))]
pub fn open_number(program: &[u16], store: &[u16]) -> Result<(), Refusal>
    requires rows_inside { RowsInside program.now }
    requires shaped { Shaped store.now }
    requires store_value { (word store.now 8 ≡ 0) × (word store.now 9 < tasks program.now) }
    ensures { result ≡ obey (open_rule program.now (view store.now)) }
{
    if store[10] == 0 {
        return Ok(());
    }
    if store[10] != rows::transaction(program, store[9]) {
        return Err(Refusal::Control(10));
    }
    Ok(())
}

// "the first n log addresses below M", that of one pair.
#[tactic(auto, using(model::proofs::TestLaws::tests), unfolding(model::specs::Device::pair_sound, model::specs::Test::must))]
pub fn pair_address(program: &[u16], store: &[u16], pair: u16) -> Result<(), Refusal>
    requires contents { Contents program.now }
    requires shaped_for { ShapedFor program.now store.now }
    requires pair_bound { pair < word store.now 2 }
    ensures { result ≡ pair_sound program.now (view store.now) pair }
{
    if log::address(store, pair) >= program[3] {
        return Err(Refusal::Control(store[6] + 2 * pair));
    }
    Ok(())
}
