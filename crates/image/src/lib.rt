// program.img: its words, low byte first, what the check says of them, and how many words a store for them has.

#![tactic(auto)]

ghost use Rattle.std.specs.Prelude.{◌+◌, ◌*◌, ◌≤◌, length, take, ◌≡◌};
ghost use Rattle.image.specs.Image.{first_words};
ghost use Rattle.image.specs.Image.{Loads, Reads, StoreWords};

use model::Refusal;

// What the check says of an image, and how many words it has where the check accepts it. No Result holds both: sheet/specs/Printed.antt speaks of
// these words where the check refuses them, too.
#[derive(Clone, Copy)]
pub struct Loaded {
    pub checked: Result<(), Refusal>,
    pub length: usize,
}

fn low_first(low: u8, high: u8) -> u16
    ensures { result ≡ low + 256 * high }
{
    u16::from_le_bytes([low, high])
}

// The first words, so many.
#[tactic(auto, using(crate::proofs::ImageLaws::filled), unfolding(crate::specs::Image::first_words, crate::specs::Image::low_first))]
fn fill(image: &[u8], words: &mut [u16], count: usize)
    requires { (2 * count ≤ length image.now) × (count ≤ length words.old) }
    ensures { take count words.new ≡ first_words image.now count }
{
    for i in 0..count {
        words[i] = low_first(image[2 * i], image[2 * i + 1]);
    }
}

// The words of an image, as many as are lent, and how many they are; a last byte without its other half is none.
pub fn read(image: &[u8], words: &mut [u16]) -> usize
    ensures { Reads image.now words.new result }
{
    let count = (image.len() / 2).min(words.len());
    fill(image, words, count);
    count
}

// "an odd byte count is 1". More words than word 5 can say are 1, too, so that the others fit.
pub fn load(image: &[u8], words: &mut [u16; 65535]) -> Loaded
    ensures { Loads image.now words.new result }
{
    let refused = Loaded {
        checked: Err(Refusal::ProgramLength),
        length: 0,
    };
    if image.len() % 2 != 0 || image.len() < 12 {
        return refused;
    }
    let count = low_first(image[10], image[11]) as usize;
    if image.len() / 2 != count {
        return refused;
    }
    fill(image, words, count);
    Loaded {
        checked: program::check(&words[..count]),
        length: count,
    }
}

// The words of a store for this program, L and Q 1: as many as formatting asks for, where the check accepts it.
pub fn store_words(program: &[u16]) -> usize
    ensures { StoreWords program.now result }
{
    if program.len() < 6 || program[3] > 1024 {
        return 0;
    }
    23 + program[3] as usize
}
