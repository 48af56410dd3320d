// The rows of a table, one by one: refusal 30.
ghost use Rattle.std.specs.Prelude.{◌*◌, ◌<◌, length, Ok, ◌≡◌};
ghost use Rattle.lines.specs.Inside.{Whole};
ghost use Rattle.lines.specs.Lines.{row_rule, row_rules};

use model::Refusal;

// A row that is there, whole or not: "a 65th or incomplete row, a line past 15 or low above high".
#[tactic(auto, using(model::proofs::TestLaws::tests), unfolding(crate::specs::Lines::row_rule, model::specs::Test::must, model::specs::Test::in_turn))]
fn rule(table: &[u16], row: u16) -> Result<(), Refusal>
    requires { 4 * row < length table.now }
    ensures { result ≡ row_rule table.now row }
{
    let at = 4 * usize::from(row);
    if row >= 64 || table.len() < at + 4 || table[at] > 15 || table[at + 1] > table[at + 2] {
        return Err(Refusal::LinesRow(row));
    }
    Ok(())
}

// "first such row"
#[tactic(auto, using(model::proofs::TestLaws::by_each, crate::proofs::RowLaws::gives), unfolding(crate::specs::Lines::row_rules))]
pub(crate) fn rules(table: &[u16]) -> Result<(), Refusal>
    ensures value { result ≡ row_rules table.now }
    ensures given { result ≡ Ok tt → Whole table.now }
{
    for row in 0..table.len().div_ceil(4) {
        rule(table, row as u16)?;
    }
    Ok(())
}
