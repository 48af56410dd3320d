// Hex digits: words as four of them, and a byte's value as one.
ghost use Rattle.std.specs.Prelude.{◌+◌, ◌*◌, ◌≤◌, ◌<◌, length, ◌∷◌, ◌≡◌};
ghost use Rattle.text.specs.Text.{space, hex_digit, hex_word, hex_words, digit as digit_of};
ghost use Rattle.text.specs.Puts.{Puts};

use crate::put;

#[tactic(auto, using(model::proofs::TestLaws::tests), unfolding(crate::specs::Text::hex_digit, model::specs::Test::pick))]
fn hex_digit(n: u16) -> u8
    requires { n < 16 }
    ensures { result ≡ hex_digit n }
{
    if n < 10 {
        b'0' + n as u8
    } else {
        b'A' + (n - 10) as u8
    }
}

// A word behind a space.
#[tactic(auto, unfolding(crate::specs::Text::hex_word))]
pub fn hex_word(text: &mut [u8], at: usize, word: u16) -> usize
    requires { at + 5 ≤ length text.old }
    ensures { Puts text.old at text.new result (space ∷ hex_word word) }
{
    let bytes = [
        b' ',
        hex_digit(word / 4096 % 16),
        hex_digit(word / 256 % 16),
        hex_digit(word / 16 % 16),
        hex_digit(word % 16),
    ];
    put(text, at, &bytes)
}

pub fn hex_words(text: &mut [u8], at: usize, words: &[u16]) -> usize
    requires { at + 5 * length words.now ≤ length text.old }
    ensures puts { Puts text.old at text.new result (hex_words words.now) }
    ensures value { result ≡ at + 5 * length words.now }
{
    let mut end = at;
    for word in words {
        end = hex_word(text, end, *word);
    }
    end
}

// A byte's digit, "in hex of either case"; 16 where it has none. It stays a number: callers ask whether it is below their base, and 16 never is.
#[tactic(auto, using(model::proofs::TestLaws::tests), unfolding(crate::specs::Text::digit, model::specs::Test::pick, model::specs::Test::both))]
pub fn digit(byte: u8) -> u16
    ensures { result ≡ digit_of byte }
{
    match byte {
        b'0'..=b'9' => (byte - b'0') as u16,
        b'A'..=b'F' => (byte - b'A') as u16 + 10,
        b'a'..=b'f' => (byte - b'a') as u16 + 10,
        _ => 16,
    }
}
