// Formatting: the contents are set, word 9 becomes the entry task and all else 0. A refused call changes no word.
ghost use Rattle.std.specs.Prelude.{◌≡◌, length};
ghost use Rattle.model.specs.Program.{memory_words};
ghost use Rattle.model.specs.Store.{store_length, formatted, format_check, format};
ghost use Rattle.model.specs.Accepted.{Contents, Sizes};

use crate::contents;
use crate::contents::{CONTROL, MARK, MEMORY};
use model::Refusal;

// A store of the right length is filled.
fn fill(program: &[u16], log_pairs: u16, queue_records: u16, store: &mut [u16])
    requires contents { Contents program.now }
    requires sizes { Sizes log_pairs queue_records }
    requires store_len { length store.old ≡ store_length (memory_words program.now) log_pairs queue_records }
    ensures { store.new ≡ formatted program.now log_pairs queue_records }
{
    let memory_words = program[3];
    let entry = program[4];
    store.fill(0);
    store[0] = MARK;
    store[1] = memory_words;
    store[2] = log_pairs;
    store[3] = queue_records;
    store[4] = CONTROL;
    store[5] = MEMORY;
    store[6] = contents::log_start(memory_words);
    store[7] = contents::queue_start(memory_words, log_pairs);
    store[9] = entry;
}

#[tactic(auto, using(model::proofs::TestLaws::tests, model::proofs::TestLaws::in_a_row, model::proofs::Passed::gives), unfolding(model::specs::Store::format_check, model::specs::Store::format, model::specs::Store::format_store, model::specs::Test::must, model::specs::Test::in_turn))]
pub fn format(
    program: &[u16],
    log_pairs: u16,
    queue_records: u16,
    store: &mut [u16],
) -> Result<(), Refusal>
    ensures value { result ≡ format_check program.now log_pairs queue_records store.old }
    ensures store_after { store.new ≡ format program.now log_pairs queue_records store.old }
{
    program::check(program)?;
    if !contents::sizes(log_pairs, queue_records) {
        return Err(Refusal::StoreSize);
    }
    if store.len() != contents::end(program[3], log_pairs, queue_records) as usize {
        return Err(Refusal::StoreContents);
    }
    fill(program, log_pairs, queue_records, store);
    Ok(())
}
