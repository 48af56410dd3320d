// Text, put at a place of a lent slice of bytes; a function answers where what it put ends. A String would have to be allocated, and a host lends
// what the sheet's library fills.

#![tactic(auto)]

ghost use Rattle.std.specs.Prelude.{◌+◌, ◌≤◌, length};
ghost use Rattle.text.specs.Text.{decimal as decimal_of, spaced as spaced_of};
ghost use Rattle.text.specs.Puts.{Puts};

pub mod hex;

#[tactic(auto, using(crate::proofs::TextLaws::puts))]
pub fn put(text: &mut [u8], at: usize, bytes: &[u8]) -> usize
    requires { at + length bytes.now ≤ length text.old }
    ensures { Puts text.old at text.new result bytes.now }
{
    let end = at + bytes.len();
    text[at..end].copy_from_slice(bytes);
    end
}

#[tactic(auto, using(crate::proofs::TextLaws::in_decimal))]
pub fn decimal(text: &mut [u8], at: usize, n: u64) -> usize
    requires { at + 20 ≤ length text.old }
    ensures puts { Puts text.old at text.new result (decimal_of n) }
    ensures upper_bound { result ≤ at + 20 }
{
    let mut digits = [0u8; 20];
    let count = io::decimal(n, &mut digits);
    put(text, at, &digits[..count])
}

#[tactic(auto, using(crate::proofs::TextLaws::puts), unfolding(crate::specs::Text::spaced))]
pub fn spaced(text: &mut [u8], at: usize, n: u16) -> usize
    requires { at + 21 ≤ length text.old }
    ensures puts { Puts text.old at text.new result (spaced_of n) }
    ensures upper_bound { result ≤ at + 21 }
{
    let end = put(text, at, b" ");
    decimal(text, end, n as u64)
}
