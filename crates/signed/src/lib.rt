// Words read as two's complement: the order of JLT and the shift of SHR, which divides by a power of two and rounds down.

#![tactic(auto)]

ghost use Rattle.std.specs.Prelude.{◌<◌, ◌^◌, ◌≡◌, pos};
ghost use Rattle.std.specs.Int.Signed.{mag, shr_z};
ghost use Rattle.model.specs.Program.{signed, unsigned, shifted, less};

// The number that a word is as two's complement.
#[tactic(auto, using(model::proofs::TestLaws::tests), unfolding(model::specs::Program::signed, model::specs::Test::pick))]
fn signed(word: u16) -> i32
    ensures { result ≡ signed word }
{
    i32::from(word.cast_signed())
}

// The word that a number from -32768 to 32767 is as two's complement.
#[tactic(auto, unfolding(model::specs::Program::unsigned))]
fn unsigned(value: i32) -> u16
    requires { mag value < 32768 }
    ensures { result ≡ unsigned value }
{
    (value as i16).cast_unsigned()
}

// "SHR shall find its power of two by computing"
fn power(exponent: u16) -> i32
    requires { exponent < 16 }
    ensures { result ≡ pos (2 ^ exponent) }
{
    1 << exponent
}

// A number divided by a power of two, rounded down. Division of negative numbers rounds toward zero: so one is
// added before it and taken off after it. `div_euclid` was tried: a step of a loop of arithmetic takes 5 instructions more.
fn divided(number: i32, exponent: u16) -> i32
    requires small_number { mag number < 32768 }
    requires small_exponent { exponent < 16 }
    ensures { result ≡ shr_z number (2 ^ exponent) }
{
    let divisor = power(exponent);
    if number < 0 {
        (number + 1) / divisor - 1
    } else {
        number / divisor
    }
}

// SHR.
#[tactic(auto, using(crate::proofs::TwosComplement::mag_signed, crate::proofs::TwosComplement::mag_shifted, crate::proofs::TwosComplement::read_back), unfolding(model::specs::Program::shifted))]
pub fn shr(word: u16, places: u16) -> u16
    requires { places < 16 }
    ensures { result ≡ shifted word places }
{
    unsigned(divided(signed(word), places))
}

// JLT.
#[tactic(auto, unfolding(model::specs::Program::less))]
pub fn less(left: u16, right: u16) -> bool
    ensures { result ≡ less left right }
{
    signed(left) < signed(right)
}
