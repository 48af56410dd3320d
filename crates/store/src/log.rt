// The log: its pairs of an address and a value, the search for an address, and the saving of a pair.
// Its part of the store starts in the middle, at word 6's number, and ends where the queue starts. The search and the routines
// that save are lent that part.
ghost use Rattle.std.specs.Prelude.{◌≡◌, ℕ, ◌+◌, ◌*◌, ◌<◌, ◌≤◌, length, set};
ghost use Rattle.model.specs.Program.{word};
ghost use Rattle.model.specs.Store.{view, address, value, to, Address, Value, find};
ghost use Rattle.model.specs.Accepted.{Shaped};
ghost use Rattle.store.specs.Written.{Written};

// The first of the log's first pairs, so many as it counts, with this address.
#[tactic(auto, using(crate::proofs::Search::search_laws), unfolding(model::specs::Store::find))]
pub fn search(log: &[u16], log_count: u16, address: u16) -> Option<u16>
    requires { 2 * log_count ≤ length log.now }
    ensures value { result ≡ find log.now log_count address }
    ensures within { (pair : ℕ) → result ≡ Some pair → pair < log_count }
{
    // Not a `for`: a loop that yields by break is the form that is asked for here (docs/DECISIONS.md, "Where each form ..").
    let mut pair = 0;
    loop {
        if pair == log_count {
            break None;
        }
        if log[2 * (pair as usize)] == address {
            break Some(pair);
        }
        pair += 1;
    }
}

// The same in a store.
pub fn find(store: &[u16], log_count: u16, address: u16) -> Option<u16>
    requires shaped { Shaped store.now }
    requires log_count_bound { log_count ≤ word store.now 2 }
    ensures value { result ≡ find (view store.now).log log_count address }
    ensures within { (pair : ℕ) → result ≡ Some pair → pair < log_count }
{
    let log = store[6] as usize;
    let queue = store[7] as usize;
    search(&store[log..queue], log_count, address)
}

#[tactic(auto, using(crate::proofs::Parts::word_in_part))]
pub fn address(store: &[u16], pair: u16) -> u16
    requires shaped { Shaped store.now }
    requires pair_bound { pair < word store.now 2 }
    ensures { result ≡ address (view store.now) pair }
{
    let log = store[6] as usize;
    store[log + 2 * (pair as usize)]
}

#[tactic(auto, using(crate::proofs::Parts::word_in_part))]
pub fn value(store: &[u16], pair: u16) -> u16
    requires shaped { Shaped store.now }
    requires pair_bound { pair < word store.now 2 }
    ensures { result ≡ value (view store.now) pair }
{
    let log = store[6] as usize;
    store[log + (2 * (pair as usize) + 1)]
}

// The log's routines: they are lent the log part, to save an address or a value of a pair in it.
fn save_address(log: &mut [u16], pair: u16, address: u16)
    requires { 2 * pair < length log.old }
    ensures { log.new ≡ set log.old (2 * pair) address }
{
    log[2 * (pair as usize)] = address;
}

fn save_value(log: &mut [u16], pair: u16, value: u16)
    requires { 2 * pair + 1 < length log.old }
    ensures { log.new ≡ set log.old (2 * pair + 1) value }
{
    log[2 * (pair as usize) + 1] = value;
}

// The same in a store, whose log part is lent on. Each tells the word that it stored.
pub fn write_address(store: &mut [u16], pair: u16, address: u16) -> Option<u16>
    requires shaped { Shaped store.old }
    requires pair_bound { pair < word store.old 2 }
    ensures { Written store.old (to (Address pair) address) result store.new }
{
    let log = store[6];
    let queue = store[7];
    save_address(&mut store[log as usize..queue as usize], pair, address);
    Some(log + 2 * pair)
}

pub fn write_value(store: &mut [u16], pair: u16, value: u16) -> Option<u16>
    requires shaped { Shaped store.old }
    requires pair_bound { pair < word store.old 2 }
    ensures { Written store.old (to (Value pair) value) result store.new }
{
    let log = store[6];
    let queue = store[7];
    save_value(&mut store[log as usize..queue as usize], pair, value);
    Some(log + (2 * pair + 1))
}
