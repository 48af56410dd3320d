// How many numbers a line has, and how large they may be, by its name.
ghost use Rattle.std.specs.Prelude.{true, ◌≡◌, ◌≤◌};
ghost use Rattle.script.specs.Script.{least_numbers, most_numbers, base as base_of, has_index, has_totals, largest as largest_of};
ghost use Rattle.script.specs.Reads.{kind_of, is_wide, Small};

use crate::names::Name;

// The most numbers of any line.
pub const MANY: usize = 131072;

#[tactic(auto, unfolding(crate::specs::Script::least_numbers, crate::specs::Script::least, crate::specs::Reads::number_of))]
pub fn least(kind: Option<Name>) -> usize
    ensures { result ≡ least_numbers (kind_of kind) }
{
    match kind {
        None => 0,
        Some(name) => match name {
            Name::Sizes | Name::Format | Name::Post => 2,
            Name::Raise | Name::SetProgram | Name::SetStore => 2,
            Name::Totals | Name::SetTotals => 3,
            Name::Burst => 9,
            Name::Run | Name::ProgramLength | Name::StoreLength => 1,
            Name::SetDevice => 26,
            _ => 0,
        },
    }
}

#[tactic(auto, unfolding(crate::specs::Script::most_numbers, crate::specs::Reads::number_of, model::specs::Test::pick, model::specs::Test::either))]
pub fn most(kind: Option<Name>) -> usize
    ensures { result ≡ most_numbers (kind_of kind) }
{
    match kind {
        Some(Name::Program | Name::LinesCheck | Name::Raise) => MANY,
        _ => least(kind),
    }
}

#[tactic(auto, unfolding(crate::specs::Script::base, crate::specs::Reads::number_of, model::specs::Test::pick))]
pub fn base(kind: Option<Name>) -> u64
    ensures value { result ≡ base_of (kind_of kind) }
    ensures upper_bound { result ≤ 16 }
{
    match kind {
        Some(Name::Program) => 16,
        _ => 10,
    }
}

#[tactic(auto, unfolding(crate::specs::Script::has_index, crate::specs::Reads::number_of, model::specs::Test::both))]
fn has_index(kind: Option<Name>) -> bool
    ensures { result ≡ has_index (kind_of kind) }
{
    match kind {
        Some(Name::SetProgram | Name::SetStore | Name::ProgramLength | Name::StoreLength) => true,
        _ => false,
    }
}

#[tactic(auto, unfolding(crate::specs::Script::has_totals, crate::specs::Reads::number_of, model::specs::Test::either))]
fn has_totals(kind: Option<Name>) -> bool
    ensures { result ≡ has_totals (kind_of kind) }
{
    match kind {
        Some(Name::Totals | Name::Run | Name::SetTotals) => true,
        _ => false,
    }
}

#[tactic(auto, unfolding(crate::specs::Reads::is_wide, model::specs::Test::either))]
pub fn is_wide(kind: Option<Name>) -> bool
    ensures { result ≡ is_wide (kind_of kind) }
{
    has_index(kind) || has_totals(kind)
}

// The largest number at place i.
#[tactic(auto, using(model::proofs::TestLaws::tests), unfolding(crate::specs::Script::largest, model::specs::Test::pick, model::specs::Test::both))]
pub fn largest(kind: Option<Name>, i: usize) -> u64
    ensures { result ≡ largest_of (kind_of kind) i }
{
    if has_totals(kind) {
        return 4294967295;
    }
    if has_index(kind) && i == 0 {
        return 131072;
    }
    65535
}

// Whether the numbers held in a reading aren't larger than they may be.
pub fn are_small(kind: Option<Name>, count: usize, wide: [u64; 3]) -> bool
    ensures small { result ≡ true → Small (kind_of kind) wide count }
    ensures value { Small (kind_of kind) wide count → result ≡ true }
{
    if !is_wide(kind) {
        return true;
    }
    for i in 0..count.min(3) {
        if wide[i] > largest(kind, i) {
            return false;
        }
    }
    true
}
