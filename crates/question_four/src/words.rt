// The words of a program or a store, at any index: outside there are zeros, and nothing is stored.

pub fn word(words: &[u16], index: u16) -> u16 {
    words.get(index as usize).copied().unwrap_or(0)
}

pub fn set(words: &mut [u16], index: u16, value: u16) {
    if let Some(place) = words.get_mut(index as usize) {
        *place = value;
    }
}

pub fn phase(store: &[u16]) -> u16 {
    word(store, 8)
}

pub fn head(store: &[u16]) -> u16 {
    word(store, 14)
}

pub fn tail(store: &[u16]) -> u16 {
    word(store, 15)
}

// The slot after this one, and the one before it, in the ring of Q + 1.
pub fn slot_after(store: &[u16], slot: u16) -> u16 {
    if slot < word(store, 3) { slot + 1 } else { 0 }
}

pub fn slot_before(store: &[u16], slot: u16) -> u16 {
    if slot == 0 { word(store, 3) } else { slot - 1 }
}

// A word of memory, which starts where word 5 says.
pub fn memory(store: &[u16], address: u16) -> u16 {
    word(store, word(store, 5).wrapping_add(address))
}

// Where a slot's event stands, and its data behind it.
pub fn event_word(store: &[u16], slot: u16) -> u16 {
    word(store, 7).wrapping_add(slot.wrapping_mul(2))
}

pub fn data_word(store: &[u16], slot: u16) -> u16 {
    event_word(store, slot).wrapping_add(1)
}

// The waiting record, its event and its data.
pub fn waiting(store: &[u16]) -> Option<(u16, u16)> {
    let slot = head(store);
    if slot == tail(store) {
        return None;
    }
    Some((
        word(store, event_word(store, slot)),
        word(store, data_word(store, slot)),
    ))
}
