// The memory part: one word read, one word written.
ghost use Rattle.std.specs.Prelude.{◌≡◌, ◌<◌};
ghost use Rattle.model.specs.Program.{word};
ghost use Rattle.model.specs.Store.{view, to, Memory};
ghost use Rattle.model.specs.Accepted.{Shaped};
ghost use Rattle.store.specs.Written.{Written};

use crate::contents::MEMORY;

pub fn read(store: &[u16], address: u16) -> u16
    requires shaped { Shaped store.now }
    requires address_bound { address < word store.now 1 }
    ensures { result ≡ word (view store.now).memory address }
{
    store[MEMORY as usize + address as usize]
}

// It tells the word that it stored.
pub fn write(store: &mut [u16], address: u16, value: u16) -> Option<u16>
    requires shaped { Shaped store.old }
    requires address_bound { address < word store.old 1 }
    ensures { Written store.old (to (Memory address) value) result store.new }
{
    let word = MEMORY + address;
    store[word as usize] = value;
    Some(word)
}
