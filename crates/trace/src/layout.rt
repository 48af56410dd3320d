// Texts in columns and cells, each put at a place of the text; a function answers where what it put ends.
ghost use Rattle.std.specs.Prelude.{◌+◌, ◌≤◌, length, replicate, ◌∷◌, ◌≡◌};
ghost use Rattle.text.specs.Puts.{Puts};
ghost use Rattle.text.specs.Text.{space, decimal as decimal_of};
ghost use Rattle.trace.specs.Trace.{tab, aligned, padded, field};

use text::{decimal, put, spaced};

#[tactic(auto, using(text::proofs::TextLaws::puts))]
fn spaces(text: &mut [u8], at: usize, count: usize) -> usize
    requires { at + count ≤ length text.old }
    ensures puts { Puts text.old at text.new result (replicate count space) }
    ensures value { result ≡ at + count }
{
    let end = at + count;
    text[at..end].fill(b' ');
    end
}

#[tactic(auto, using(text::proofs::TextLaws::puts), unfolding(crate::specs::Trace::aligned))]
pub fn aligned(text: &mut [u8], at: usize, n: u64) -> usize
    requires { at + 26 ≤ length text.old }
    ensures puts { Puts text.old at text.new result (aligned n) }
    ensures upper_bound { result ≤ at + 26 }
{
    let mut digits = [0u8; 20];
    let count = decimal(&mut digits, 0, n);
    let end = spaces(text, at, 6usize.saturating_sub(count));
    put(text, end, &digits[..count])
}

#[tactic(auto, using(text::proofs::TextLaws::puts), unfolding(crate::specs::Trace::padded))]
pub fn padded(text: &mut [u8], at: usize, width: usize, bytes: &[u8]) -> usize
    requires { at + width + 1 + length bytes.now ≤ length text.old }
    ensures puts { Puts text.old at text.new result (padded width bytes.now) }
    ensures upper_bound { result ≤ at + width + 1 + length bytes.now }
{
    let end = put(text, at, bytes);
    let end = put(text, end, b" ");
    spaces(text, end, width.saturating_sub(1 + bytes.len()))
}

// A number in a cell.
#[tactic(auto, using(text::proofs::TextLaws::puts))]
pub fn tabbed(text: &mut [u8], at: usize, n: u64) -> usize
    requires { at + 21 ≤ length text.old }
    ensures puts { Puts text.old at text.new result (tab ∷ decimal_of n) }
    ensures upper_bound { result ≤ at + 21 }
{
    let end = put(text, at, b"\t");
    decimal(text, end, n)
}

// A value behind its name.
#[tactic(auto, using(text::proofs::TextLaws::puts), unfolding(crate::specs::Trace::field))]
pub fn field(text: &mut [u8], at: usize, name: &[u8], n: u16) -> usize
    requires { at + 21 + length name.now ≤ length text.old }
    ensures puts { Puts text.old at text.new result (field name.now n) }
    ensures upper_bound { result ≤ at + 21 + length name.now }
{
    let end = put(text, at, name);
    spaced(text, end, n)
}
