// The contents of a store, words 0 to 7, and refusal 6: do they and the length fit, for the program's M?
ghost use Rattle.std.specs.Prelude.{◌≡◌, ◌≤◌};
ghost use Rattle.model.specs.Store.{log_at, queue_at, store_length, sizes_rule, store_rule};
ghost use Rattle.model.specs.Accepted.{Contents, Sizes, ShapedFor};

use model::Refusal;

pub const MARK: u16 = 0xC0A2;

pub const CONTROL: u16 = 8;

pub const MEMORY: u16 = 17;

// L is 1 to 64 and Q is 1 to 32.
#[tactic(auto, using(model::proofs::TestLaws::tests), unfolding(model::specs::Store::sizes_rule, model::specs::Test::both))]
pub fn sizes(log_pairs: u16, queue_records: u16) -> bool
    ensures { result ≡ sizes_rule log_pairs queue_records }
{
    1 <= log_pairs && log_pairs <= 64 && 1 <= queue_records && queue_records <= 32
}

// Where the log and the queue start, and where the store ends.
pub fn log_start(memory_words: u16) -> u16
    requires { memory_words ≤ 1024 }
    ensures { result ≡ log_at memory_words }
{
    MEMORY + memory_words
}

pub fn queue_start(memory_words: u16, log_pairs: u16) -> u16
    requires memory_words_bound { memory_words ≤ 1024 }
    requires log_pairs_bound { log_pairs ≤ 64 }
    ensures { result ≡ queue_at memory_words log_pairs }
{
    log_start(memory_words) + 2 * log_pairs
}

pub fn end(memory_words: u16, log_pairs: u16, queue_records: u16) -> u16
    requires memory_words_bound { memory_words ≤ 1024 }
    requires sizes { Sizes log_pairs queue_records }
    ensures { result ≡ store_length memory_words log_pairs queue_records }
{
    queue_start(memory_words, log_pairs) + 2 * (queue_records + 1)
}

// Refusal 6.
#[tactic(auto, using(model::proofs::TestLaws::tests, model::proofs::Passed::gives), unfolding(model::specs::Store::store_rule, model::specs::Store::store_mark, model::specs::Test::must, model::specs::Test::in_turn))]
pub fn store_rule(program: &[u16], store: &[u16]) -> Result<(), Refusal>
    requires { Contents program.now }
    ensures value { result ≡ store_rule program.now store.now }
    ensures given { result ≡ Ok tt → ShapedFor program.now store.now }
{
    if store.len() < 8 {
        return Err(Refusal::StoreContents);
    }
    if store[0] != MARK {
        return Err(Refusal::StoreContents);
    }
    let memory_words = program[3];
    if store[1] != memory_words {
        return Err(Refusal::StoreContents);
    }
    let log_pairs = store[2];
    let queue_records = store[3];
    if !sizes(log_pairs, queue_records) {
        return Err(Refusal::StoreContents);
    }
    if store[4] != CONTROL {
        return Err(Refusal::StoreContents);
    }
    if store[5] != MEMORY {
        return Err(Refusal::StoreContents);
    }
    if store[6] != log_start(memory_words) {
        return Err(Refusal::StoreContents);
    }
    if store[7] != queue_start(memory_words, log_pairs) {
        return Err(Refusal::StoreContents);
    }
    if store.len() != end(memory_words, log_pairs, queue_records) as usize {
        return Err(Refusal::StoreContents);
    }
    Ok(())
}
