// Refusal 7: the rules of the control words, of the log's addresses and of the waiting records, in the order of their words.
// Each rule is a function of its own; `early` is what a step and a post look at, `whole` what a boot does.

#![tactic(auto)]

ghost use Rattle.std.specs.Prelude.{◌≡◌, List, ℕ, ◌+◌, ◌<◌, ◌≤◌, eqb};
ghost use Rattle.model.specs.Control.{obey, obey_all, committing, phase_rule, task_rule, open_rule, open_serving, count_rule, pending_task_rule, pending_head_rule, pending_move_rule, pending_open_rule, head_rule, tail_rule, begun_rule, begun_event_rule, address_rule, start_kept, record_rule, rules, early_rules};
ghost use Rattle.model.specs.Program.{word, tasks, transaction};
ghost use Rattle.model.specs.Store.{view};
ghost use Rattle.model.specs.Test.{◌or◌, ◌then◌};
ghost use Rattle.model.specs.Accepted.{Contents, RowsInside, Shaped, ShapedFor};
ghost use Rattle.control.specs.Groups.{commit_rules, address_rules, record_rules};

use model::Refusal;
use program::rows;
use store::{log, queue};

pub mod single;

// "8 at most 2"
#[tactic(auto, using(model::proofs::TestLaws::tests), unfolding(model::specs::Control::phase_rule, model::specs::Control::obey, model::specs::Test::must, model::specs::Test::both, model::specs::Test::either))]
fn phase_rule(store: &[u16]) -> Result<(), Refusal>
    requires { Shaped store.now }
    ensures { result ≡ obey (phase_rule (view store.now)) }
{
    if store[8] > 2 {
        return Err(Refusal::Control(8));
    }
    Ok(())
}

// "9 below T"
#[tactic(auto, using(model::proofs::TestLaws::tests), unfolding(model::specs::Control::task_rule, model::specs::Control::obey, model::specs::Test::must, model::specs::Test::both, model::specs::Test::either))]
fn task_rule(program: &[u16], store: &[u16]) -> Result<(), Refusal>
    requires contents { Contents program.now }
    requires shaped { Shaped store.now }
    ensures { result ≡ obey (task_rule program.now (view store.now)) }
{
    if store[9] >= program[1] {
        return Err(Refusal::Control(9));
    }
    Ok(())
}

// Is an open number 0 or the transaction number of a task?
#[tactic(auto, using(model::proofs::TestLaws::tests), unfolding(model::specs::Test::either))]
fn open_kept(program: &[u16], open_number: u16, task: u16) -> bool
    requires rows_inside { RowsInside program.now }
    requires task_bound { task < tasks program.now }
    ensures { result ≡ (eqb open_number 0 or eqb open_number (transaction program.now task)) }
{
    open_number == 0 || open_number == rows::transaction(program, task)
}

// "in phase 0, 10 is 0 or the transaction number of task 9"
#[tactic(auto, using(model::proofs::TestLaws::tests), unfolding(model::specs::Control::open_rule, model::specs::Control::task_rule, model::specs::Control::obey, model::specs::Test::must, model::specs::Test::both, model::specs::Test::either))]
fn open_rule(program: &[u16], store: &[u16]) -> Result<(), Refusal>
    requires rows_inside { RowsInside program.now }
    requires shaped { Shaped store.now }
    ensures { result ≡ obey (open_rule program.now (view store.now)) }
{
    if store[8] == 0 && store[9] < program[1] && !open_kept(program, store[10], store[9]) {
        return Err(Refusal::Control(10));
    }
    Ok(())
}

// "in phase 2, 10 is 0"
#[tactic(auto, using(model::proofs::TestLaws::tests), unfolding(model::specs::Control::open_serving, model::specs::Control::obey, model::specs::Test::must, model::specs::Test::both, model::specs::Test::either))]
fn open_serving(store: &[u16]) -> Result<(), Refusal>
    requires { Shaped store.now }
    ensures { result ≡ obey (open_serving (view store.now)) }
{
    if store[8] == 2 && store[10] != 0 {
        return Err(Refusal::Control(10));
    }
    Ok(())
}

#[tactic(auto, using(model::proofs::TestLaws::tests), unfolding(model::specs::Test::either))]
fn is_committing(store: &[u16]) -> bool
    requires { Shaped store.now }
    ensures { result ≡ committing (view store.now) }
{
    store[8] == 1 || store[8] == 2
}

// "In phases 1 and 2, 11 at most L"
#[tactic(auto, using(model::proofs::TestLaws::tests), unfolding(model::specs::Control::count_rule, model::specs::Control::obey, model::specs::Test::must, model::specs::Test::both, model::specs::Test::either))]
fn count_rule(store: &[u16]) -> Result<(), Refusal>
    requires { Shaped store.now }
    ensures { result ≡ obey (count_rule (view store.now)) }
{
    if is_committing(store) && store[11] > store[2] {
        return Err(Refusal::Control(11));
    }
    Ok(())
}

// "In phase 1, 12 below T"
#[tactic(auto, using(model::proofs::TestLaws::tests), unfolding(model::specs::Control::pending_task_rule, model::specs::Control::obey, model::specs::Test::must, model::specs::Test::both, model::specs::Test::either))]
fn pending_task_rule(program: &[u16], store: &[u16]) -> Result<(), Refusal>
    requires contents { Contents program.now }
    requires shaped { Shaped store.now }
    ensures { result ≡ obey (pending_task_rule program.now (view store.now)) }
{
    if store[8] == 1 && store[12] >= program[1] {
        return Err(Refusal::Control(12));
    }
    Ok(())
}

// "In phase 2, 12 at most Q"
#[tactic(auto, using(model::proofs::TestLaws::tests), unfolding(model::specs::Control::pending_head_rule, model::specs::Control::obey, model::specs::Test::must, model::specs::Test::both, model::specs::Test::either))]
fn pending_head_rule(store: &[u16]) -> Result<(), Refusal>
    requires { Shaped store.now }
    ensures { result ≡ obey (pending_head_rule (view store.now)) }
{
    if store[8] == 2 && store[12] > store[3] {
        return Err(Refusal::Control(12));
    }
    Ok(())
}

// "and equals 14, or is the slot after it with the queue not empty"
#[tactic(auto, using(model::proofs::TestLaws::tests), unfolding(model::specs::Control::pending_move_rule, model::specs::Test::both, model::specs::Test::either))]
fn pending_move_kept(store: &[u16]) -> bool
    requires shaped { Shaped store.now }
    requires store_bound { word store.now 14 ≤ word store.now 3 }
    ensures { result ≡ (pending_move_rule (view store.now)).kept }
{
    store[12] == store[14]
        || store[12] == queue::slot_after(store[3], store[14]) && store[14] != store[15]
}

// In phase 2 that, which "needs 14 and 15".
#[tactic(auto, using(model::proofs::TestLaws::tests), unfolding(model::specs::Control::pending_move_rule, model::specs::Control::head_rule, model::specs::Control::tail_rule, model::specs::Control::obey, model::specs::Test::must, model::specs::Test::both, model::specs::Test::either))]
fn pending_move_rule(store: &[u16]) -> Result<(), Refusal>
    requires { Shaped store.now }
    ensures { result ≡ obey (pending_move_rule (view store.now)) }
{
    if store[8] == 2
        && store[14] <= store[3]
        && store[15] <= store[3]
        && !pending_move_kept(store)
    {
        return Err(Refusal::Control(12));
    }
    Ok(())
}

// "13 is 0 or task 12's number", in phase 1
#[tactic(auto, using(model::proofs::TestLaws::tests), unfolding(model::specs::Control::pending_open_rule, model::specs::Control::pending_task_rule, model::specs::Control::obey, model::specs::Test::must, model::specs::Test::both, model::specs::Test::either))]
fn pending_open_rule(program: &[u16], store: &[u16]) -> Result<(), Refusal>
    requires rows_inside { RowsInside program.now }
    requires shaped { Shaped store.now }
    ensures { result ≡ obey (pending_open_rule program.now (view store.now)) }
{
    if store[8] == 1 && store[12] < program[1] && !open_kept(program, store[13], store[12]) {
        return Err(Refusal::Control(13));
    }
    Ok(())
}

// "14 and 15 at most Q"
#[tactic(auto, using(model::proofs::TestLaws::tests), unfolding(model::specs::Control::head_rule, model::specs::Control::obey, model::specs::Test::must, model::specs::Test::both, model::specs::Test::either))]
fn head_rule(store: &[u16]) -> Result<(), Refusal>
    requires { Shaped store.now }
    ensures { result ≡ obey (head_rule (view store.now)) }
{
    if store[14] > store[3] {
        return Err(Refusal::Control(14));
    }
    Ok(())
}

#[tactic(auto, using(model::proofs::TestLaws::tests), unfolding(model::specs::Control::tail_rule, model::specs::Control::obey, model::specs::Test::must, model::specs::Test::both, model::specs::Test::either))]
fn tail_rule(store: &[u16]) -> Result<(), Refusal>
    requires { Shaped store.now }
    ensures { result ≡ obey (tail_rule (view store.now)) }
{
    if store[15] > store[3] {
        return Err(Refusal::Control(15));
    }
    Ok(())
}

// "word 16 at most 2"
#[tactic(auto, using(model::proofs::TestLaws::tests), unfolding(model::specs::Control::begun_rule, model::specs::Control::obey, model::specs::Test::must, model::specs::Test::both, model::specs::Test::either))]
fn begun_rule(store: &[u16]) -> Result<(), Refusal>
    requires { Shaped store.now }
    ensures { result ≡ obey (begun_rule (view store.now)) }
{
    if store[16] > 2 {
        return Err(Refusal::Control(16));
    }
    Ok(())
}

// "in phase 0 a 2 needs a queue not empty and word 10 at 0", which needs 14 and 15
#[tactic(auto, using(model::proofs::TestLaws::tests), unfolding(model::specs::Control::begun_event_rule, model::specs::Control::head_rule, model::specs::Control::tail_rule, model::specs::Store::empty, model::specs::Control::obey, model::specs::Test::must, model::specs::Test::both, model::specs::Test::either))]
fn begun_event_rule(store: &[u16]) -> Result<(), Refusal>
    requires { Shaped store.now }
    ensures { result ≡ obey (begun_event_rule (view store.now)) }
{
    if store[16] == 2
        && store[8] == 0
        && store[14] <= store[3]
        && store[15] <= store[3]
        && (store[14] == store[15] || store[10] != 0)
    {
        return Err(Refusal::Control(16));
    }
    Ok(())
}

// "the first n log addresses below M", one pair's
#[tactic(auto, using(model::proofs::TestLaws::tests), unfolding(model::specs::Control::address_rule, model::specs::Control::count_rule, model::specs::Control::obey, model::specs::Test::must, model::specs::Test::both, model::specs::Test::either))]
fn address_rule(program: &[u16], store: &[u16], pair: u16) -> Result<(), Refusal>
    requires contents { Contents program.now }
    requires shaped_for { ShapedFor program.now store.now }
    requires pair_bound { pair < word store.now 2 }
    ensures { result ≡ obey (address_rule program.now (view store.now) pair) }
{
    if is_committing(store)
        && store[11] <= store[2]
        && pair < store[11]
        && log::address(store, pair) >= program[3]
    {
        return Err(Refusal::Control(store[6] + 2 * pair));
    }
    Ok(())
}

// In phase 2 the waiting records start at word 12's slot, so that its rules must be kept.
#[tactic(auto, using(model::proofs::TestLaws::tests), unfolding(model::specs::Control::start_kept, model::specs::Control::pending_head_rule, model::specs::Control::pending_move_rule, model::specs::Test::both, model::specs::Test::either, model::specs::Test::pick))]
fn start_kept(store: &[u16]) -> bool
    requires shaped { Shaped store.now }
    requires store_bound { word store.now 14 ≤ word store.now 3 }
    ensures { result ≡ start_kept (view store.now) }
{
    store[8] != 2 || store[12] <= store[3] && pending_move_kept(store)
}

// Does a record wait in a slot? Its rule is asked where that is known, for any program.
#[tactic(auto, using(model::proofs::TestLaws::tests), unfolding(model::specs::Control::record_rule, model::specs::Control::phase_rule, model::specs::Control::head_rule, model::specs::Control::tail_rule, model::specs::Test::both))]
fn record_waits(store: &[u16], slot: u16) -> bool
    requires { Shaped store.now }
    ensures { (p : List ℕ) → result ≡ (record_rule p (view store.now) slot).asked }
{
    store[8] <= 2
        && store[14] <= store[3]
        && store[15] <= store[3]
        && start_kept(store)
        && queue::between(queue::first_waiting(store), store[15], slot)
}

// "each waiting record's event below E", one slot's
#[tactic(auto, using(model::proofs::TestLaws::tests), unfolding(model::specs::Control::record_rule, model::specs::Control::obey, model::specs::Test::must, model::specs::Test::both, model::specs::Test::either))]
fn record_rule(program: &[u16], store: &[u16], slot: u16) -> Result<(), Refusal>
    requires contents { Contents program.now }
    requires shaped_for { ShapedFor program.now store.now }
    requires slot_bound { slot ≤ word store.now 3 }
    ensures { result ≡ obey (record_rule program.now (view store.now) slot) }
{
    if record_waits(store, slot) && queue::event(store, slot) >= program[2] {
        return Err(Refusal::Control(store[7] + 2 * slot));
    }
    Ok(())
}

// "the first n log addresses below M"
#[tactic(auto, using(crate::proofs::Groups::by_rules))]
fn addresses(program: &[u16], store: &[u16]) -> Result<(), Refusal>
    requires contents { Contents program.now }
    requires shaped_for { ShapedFor program.now store.now }
    ensures { result ≡ obey_all (address_rules program.now (view store.now)) }
{
    for pair in 0..store[2] {
        address_rule(program, store, pair)?;
    }
    Ok(())
}

// "each waiting record's event below E"
#[tactic(auto, using(crate::proofs::Groups::by_rules))]
fn records(program: &[u16], store: &[u16]) -> Result<(), Refusal>
    requires contents { Contents program.now }
    requires shaped_for { ShapedFor program.now store.now }
    ensures { result ≡ obey_all (record_rules program.now (view store.now)) }
{
    for slot in 0..store[3] + 1 {
        record_rule(program, store, slot)?;
    }
    Ok(())
}

// The rules of words 10 to 12 that speak in phases 1 and 2 alone.
#[tactic(auto, using(model::proofs::TestLaws::in_a_row, model::proofs::TestLaws::then_accepted), unfolding(model::specs::Control::obey_all, model::specs::Test::in_turn))]
fn commit_rules(program: &[u16], store: &[u16]) -> Result<(), Refusal>
    requires contents { Contents program.now }
    requires shaped { Shaped store.now }
    ensures { result ≡ obey_all (commit_rules program.now (view store.now)) }
{
    open_serving(store)?;
    count_rule(store)?;
    pending_task_rule(program, store)?;
    pending_head_rule(store)?;
    pending_move_rule(store)
}

// The same without a call in phase 0, where each of them is passed over: most steps are of phase 0.
#[tactic(auto, using(model::proofs::TestLaws::tests), unfolding(model::specs::Control::obey_all, model::specs::Control::open_serving, model::specs::Control::count_rule, model::specs::Control::pending_task_rule, model::specs::Control::pending_head_rule, model::specs::Control::pending_move_rule, model::specs::Test::in_turn, model::specs::Control::obey, model::specs::Test::must, model::specs::Test::both, model::specs::Test::either))]
#[inline(always)]
fn early_commit_rules(program: &[u16], store: &[u16]) -> Result<(), Refusal>
    requires contents { Contents program.now }
    requires shaped { Shaped store.now }
    ensures { result ≡ obey_all (commit_rules program.now (view store.now)) }
{
    if store[8] == 0 {
        return Ok(());
    }
    commit_rules(program, store)
}

// The rules of word 16, without a call where it is 0 or 1: both are kept then.
#[tactic(auto, using(model::proofs::TestLaws::in_a_row, model::proofs::TestLaws::tests), unfolding(model::specs::Control::begun_rule, model::specs::Control::begun_event_rule, model::specs::Control::obey, model::specs::Test::must, model::specs::Test::both, model::specs::Test::either))]
#[inline(always)]
fn early_begun_rules(store: &[u16]) -> Result<(), Refusal>
    requires { Shaped store.now }
    ensures { result ≡ (obey (begun_rule (view store.now)) then obey (begun_event_rule (view store.now))) }
{
    if store[16] < 2 {
        return Ok(());
    }
    begun_rule(store)?;
    begun_event_rule(store)
}

// 7 without the rules that need a row, a log pair or a record.
#[tactic(auto, using(model::proofs::TestLaws::in_a_row, crate::proofs::Groups::early_in_groups), unfolding(model::specs::Test::in_turn))]
pub fn early(program: &[u16], store: &[u16]) -> Result<(), Refusal>
    requires contents { Contents program.now }
    requires shaped_for { ShapedFor program.now store.now }
    ensures { result ≡ obey_all (early_rules program.now (view store.now)) }
{
    phase_rule(store)?;
    task_rule(program, store)?;
    early_commit_rules(program, store)?;
    head_rule(store)?;
    tail_rule(store)?;
    early_begun_rules(store)
}

// 7 whole, for a program whose rows can be read.
#[tactic(auto, using(model::proofs::TestLaws::in_a_row, crate::proofs::Groups::all_in_groups), unfolding(model::specs::Test::in_turn))]
pub fn whole(program: &[u16], store: &[u16]) -> Result<(), Refusal>
    requires rows_inside { RowsInside program.now }
    requires shaped_for { ShapedFor program.now store.now }
    ensures { result ≡ obey_all (rules program.now (view store.now)) }
{
    phase_rule(store)?;
    task_rule(program, store)?;
    open_rule(program, store)?;
    commit_rules(program, store)?;
    pending_open_rule(program, store)?;
    head_rule(store)?;
    tail_rule(store)?;
    begun_rule(store)?;
    begun_event_rule(store)?;
    addresses(program, store)?;
    records(program, store)
}
