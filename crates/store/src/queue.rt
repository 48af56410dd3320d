// The queue: a ring of Q + 1 slots, each an event and its data.
// Its part of the store starts at word 7's number; word 14 is head and word 15 is tail.
ghost use Rattle.std.specs.Prelude.{◌≡◌, ◌+◌, ◌-◌, ◌*◌, ◌≤◌, ltb};
ghost use Rattle.model.specs.Control.{between};
ghost use Rattle.model.specs.Program.{word};
ghost use Rattle.model.specs.Store.{view, event, datum, to, slot_after, forward, ring_word, empty, full, room, first_waiting};
ghost use Rattle.model.specs.Test.{pick};
ghost use Rattle.model.specs.Accepted.{Shaped};
ghost use Rattle.store.specs.Written.{Written};

#[tactic(auto, using(crate::proofs::Parts::word_in_part))]
pub fn event(store: &[u16], slot: u16) -> u16
    requires shaped { Shaped store.now }
    requires slot_bound { slot ≤ word store.now 3 }
    ensures { result ≡ event (view store.now) slot }
{
    let queue = store[7] as usize;
    store[queue + 2 * (slot as usize)]
}

#[tactic(auto, using(crate::proofs::Parts::word_in_part))]
pub fn datum(store: &[u16], slot: u16) -> u16
    requires shaped { Shaped store.now }
    requires slot_bound { slot ≤ word store.now 3 }
    ensures { result ≡ datum (view store.now) slot }
{
    let queue = store[7] as usize;
    store[queue + (2 * (slot as usize) + 1)]
}

// A value goes to the ring's word so many places after the first word of a slot: its event, its data, the event of the slot after it, ..
// The word stored is told.
pub fn write_ahead(store: &mut [u16], slot: u16, places: u16, value: u16) -> Option<u16>
    requires shaped { Shaped store.old }
    requires slot_bound { (slot ≤ word store.old 3) × (places ≤ 2 * word store.old 3 + 1) }
    ensures { Written store.old (to (ring_word (word store.old 3) slot places) value) result store.new }
{
    let words = 2 * (store[3] + 1);
    let ahead = 2 * slot + places;
    let word = store[7] + around(words, ahead);
    store[word as usize] = value;
    Some(word)
}

// A place of a ring of so many, at most once past its end.
#[tactic(auto, using(model::proofs::TestLaws::tests), unfolding(model::specs::Test::pick))]
fn around(ring: u16, place: u16) -> u16
    ensures { result ≡ pick (ltb place ring) place (place - ring) }
{
    if place < ring { place } else { place - ring }
}

// The slot after a slot, of the slots 0 to Q.
#[tactic(auto, using(model::proofs::TestLaws::tests), unfolding(model::specs::Store::slot_after, model::specs::Test::pick))]
pub fn slot_after(queue_records: u16, slot: u16) -> u16
    requires { slot ≤ queue_records }
    ensures { result ≡ slot_after queue_records slot }
{
    if slot == queue_records { 0 } else { slot + 1 }
}

// The slot so many places after a slot.
#[tactic(auto, using(crate::proofs::Ring::slot_ahead))]
pub fn forward(queue_records: u16, slot: u16, places: u16) -> u16
    requires { (slot ≤ queue_records) × (places ≤ queue_records) × (queue_records ≤ 32) }
    ensures { result ≡ forward queue_records slot places }
{
    around(queue_records + 1, slot + places)
}

pub fn is_empty(store: &[u16]) -> bool
    requires { Shaped store.now }
    ensures { result ≡ empty (view store.now) }
{
    store[14] == store[15]
}

// Is the slot after tail head?
pub fn is_full(store: &[u16]) -> bool
    requires shaped { Shaped store.now }
    requires store_bound { word store.now 15 ≤ word store.now 3 }
    ensures { result ≡ full (view store.now) }
{
    slot_after(store[3], store[15]) == store[14]
}

// How many records more the ring takes: none where it is full.
#[tactic(auto, using(model::proofs::TestLaws::tests), unfolding(model::specs::Store::room, model::specs::Store::distance, model::specs::Test::pick))]
pub fn room(store: &[u16]) -> u16
    requires shaped { Shaped store.now }
    requires store_bound { (word store.now 14 ≤ word store.now 3) × (word store.now 15 ≤ word store.now 3) }
    ensures { result ≡ room (view store.now) }
{
    let head = store[14];
    let tail = store[15];
    if head <= tail {
        store[3] - (tail - head)
    } else {
        head - tail - 1
    }
}

// The waiting records start at head, in phase 2 at word 12's slot.
#[tactic(auto, using(model::proofs::TestLaws::tests), unfolding(model::specs::Store::first_waiting, model::specs::Test::pick))]
pub fn first_waiting(store: &[u16]) -> u16
    requires { Shaped store.now }
    ensures { result ≡ first_waiting (view store.now) }
{
    if store[8] == 2 { store[12] } else { store[14] }
}

// Does a record wait in a slot, of records from head up to tail?
#[tactic(auto, using(model::proofs::TestLaws::tests), unfolding(model::specs::Control::between, model::specs::Test::pick, model::specs::Test::both, model::specs::Test::either))]
pub fn between(head: u16, tail: u16, slot: u16) -> bool
    ensures { result ≡ between head tail slot }
{
    if head <= tail {
        head <= slot && slot < tail
    } else {
        head <= slot || slot < tail
    }
}

// The record at head.
pub fn head_event(store: &[u16]) -> u16
    requires shaped { Shaped store.now }
    requires store_bound { word store.now 14 ≤ word store.now 3 }
    ensures { result ≡ event (view store.now) (view store.now).head }
{
    event(store, store[14])
}

pub fn head_datum(store: &[u16]) -> u16
    requires shaped { Shaped store.now }
    requires store_bound { word store.now 14 ≤ word store.now 3 }
    ensures { result ≡ datum (view store.now) (view store.now).head }
{
    datum(store, store[14])
}
