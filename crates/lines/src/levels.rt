// The levels of a table's lines: refusals 31 and 32. They are not counted one by one. A table whose rows stand in order is seen to be good in
// one pass. Of others the lowest gap of a line is found by going from row to row, each from where the last one ends, and the lowest
// overlap is where two rows that share a level begin to. A table of 64 rows costs at most 7,400 looks at a row: with 30 two passes, then 16
// searches for a line and 65 for a row, of 64 looks each, and 2,016 pairs.
ghost use Rattle.std.specs.Prelude.{◌+◌, ◌*◌, ◌<◌, ◌≤◌, eqb, ltb, Ok, Some, None, unwrap_or, true, ◌≡◌};
ghost use Rattle.model.specs.Test.{pick};
ghost use Rattle.lines.specs.Inside.{Whole, Partitioned, Least, Gap, SharedAt, SharedBelow, follows, row_at};
ghost use Rattle.lines.specs.Lines.{rows, covers, named, row_of, event_of, no_event, levels, gap_rule, overlap_rule, line_rule, line_rules};

use model::Refusal;

// The event of a row that posts nothing.
const NO_EVENT: u16 = 65535;

// A row: a line, its levels from the low to the high one, and their event.
#[derive(Clone, Copy)]
struct Row {
    line: u16,
    low: u16,
    high: u16,
    event: u16,
}

// A table that 30 accepts.
#[derive(Clone, Copy)]
pub(crate) struct Table<'a> {
    pub words: &'a [u16],
    ghost whole: { Whole words.now },
}

// Behind the places of all levels of all lines. A lowest place is a number and no Option, since the lesser of two places is asked for, and none is past all.
const PAST_ALL: u32 = 1048576;

// A level of a line as one number, in the order of 32: "line, lowest level".
fn place(line: u16, level: u16) -> u32
    ensures { result ≡ 65536 * line + level }
{
    65536 * (line as u32) + level as u32
}

impl Table<'_> {
    // How many rows it has.
    pub(crate) fn rows(&self) -> usize
        ensures { result ≡ rows self.now.words.now }
    {
        self.words.len() / 4
    }

    // A row by its number.
    fn row(&self, i: usize) -> Row
        requires { i < rows self.now.words.now }
        ensures { result ≡ row_at self.now.words.now i }
    {
        Row {
            line: self.words[4 * i],
            low: self.words[4 * i + 1],
            high: self.words[4 * i + 2],
            event: self.words[4 * i + 3],
        }
    }

    // Whether a row goes on where the rows before it end: all of lines below `from`, the last of them of the levels below `next`.
    #[tactic(auto, using(model::proofs::TestLaws::tests), unfolding(crate::specs::Inside::follows, model::specs::Test::pick, model::specs::Test::both))]
    fn follows(&self, row: usize, from: u16, next: u32) -> bool
        requires { row < rows self.now.words.now }
        ensures { result ≡ follows self.now.words.now row from next }
    {
        let row = self.row(row);
        if next == 65536 {
            row.line >= from && row.low == 0
        } else {
            row.line + 1 == from && row.low as u32 == next
        }
    }

    // Whether the rows stand in order, line by line, the levels of each line from 0 to 65535. Then there is neither gap nor overlap.
    pub(crate) fn in_order(&self) -> bool
        ensures { result ≡ true → Partitioned self.now.words.now }
    {
        let mut from = 0;
        let mut next = 65536;
        for row in 0..self.rows() {
            if !self.follows(row, from, next) {
                return false;
            }
            let row = self.row(row);
            from = row.line + 1;
            next = row.high as u32 + 1;
        }
        next == 65536
    }

    // Whether a row covers a level of a line.
    #[tactic(auto, using(model::proofs::TestLaws::tests), unfolding(crate::specs::Lines::covers, model::specs::Test::both))]
    fn covers(&self, line: u16, level: u16, row: usize) -> bool
        requires { row < rows self.now.words.now }
        ensures { result ≡ covers self.now.words.now line level row }
    {
        let row = self.row(row);
        row.line == line && row.low <= level && level <= row.high
    }

    // The row that covers a level of a line, if there is one.
    #[tactic(auto, using(crate::proofs::CountLaws::by_first), unfolding(crate::specs::Lines::row_of))]
    pub(crate) fn row_of(&self, line: u16, level: u16) -> Option<usize>
        ensures { result ≡ pick (ltb (row_of self.now.words.now line level) (rows self.now.words.now)) (Some (row_of self.now.words.now line level)) None }
    {
        for row in 0..self.rows() {
            if self.covers(line, level, row) {
                return Some(row);
            }
        }
        None
    }

    // The event of the row that covers a level of a line, if there is one.
    #[tactic(auto, using(model::proofs::TestLaws::tests), unfolding(crate::specs::Lines::event_of, crate::specs::Lines::no_event, model::specs::Test::pick))]
    pub(crate) fn event_of(&self, line: u16, level: u16) -> Option<u16>
        ensures { result ≡ pick (eqb (event_of self.now.words.now line level) no_event) None (Some (event_of self.now.words.now line level)) }
    {
        let row = self.row_of(line, level)?;
        let event = self.row(row).event;
        if event == NO_EVENT { None } else { Some(event) }
    }

    // Whether a line has rows.
    fn named(&self, line: u16) -> bool
        ensures { result ≡ named self.now.words.now line }
    {
        for row in 0..self.rows() {
            if self.row(row).line == line {
                return true;
            }
        }
        false
    }

    // The lowest level of a line that no row covers, if there is one.
    #[tactic(auto, unfolding(model::specs::Test::pick))]
    fn lowest_gap(&self, line: u16) -> Option<u16>
        ensures { Least (Gap self.now.words.now line) levels (unwrap_or result levels) }
    {
        let mut level: u16 = 0;
        loop {
            let Some(row) = self.row_of(line, level) else {
                return Some(level);
            };
            level = self.row(row).high.checked_add(1)?;
        }
    }

    // 31 of one line.
    #[tactic(auto, using(crate::proofs::LineLaws::by_gap), unfolding(crate::specs::Lines::levels))]
    fn gap(&self, line: u16) -> Result<(), Refusal>
        ensures { result ≡ line_rule self.now.words.now (gap_rule self.now.words.now) line }
    {
        if !self.named(line) {
            return Ok(());
        }
        match self.lowest_gap(line) {
            Some(level) => Err(Refusal::LinesGap(line, level)),
            None => Ok(()),
        }
    }

    // 31 "over all lines in rising order".
    #[tactic(auto, using(model::proofs::TestLaws::by_each), unfolding(crate::specs::Lines::line_rules, crate::specs::Lines::lines))]
    pub(crate) fn gaps(&self) -> Result<(), Refusal>
        ensures { result ≡ line_rules self.now.words.now (gap_rule self.now.words.now) }
    {
        for line in 0..16 {
            self.gap(line)?;
        }
        Ok(())
    }

    // The lowest place that two rows share; `PAST_ALL` where they share none.
    fn shared(&self, row: usize, other: usize) -> u32
        requires { (row < rows self.now.words.now) × (other < rows self.now.words.now) }
        ensures { Least (SharedAt self.now.words.now row other) 1048576 result }
    {
        let row = self.row(row);
        let other = self.row(other);
        // First the lines, which differ for most pairs.
        if row.line != other.line {
            return PAST_ALL;
        }
        let low = row.low.max(other.low);
        let high = row.high.min(other.high);
        if low <= high {
            place(row.line, low)
        } else {
            PAST_ALL
        }
    }

    // The lowest place that a row shares with one before it, if that is below the place given, else that place.
    fn lowest_shared(&self, row: usize, lowest: u32) -> u32
        requires { (row < rows self.now.words.now) × (lowest ≤ 1048576) }
        ensures { Least (SharedBelow self.now.words.now row row) lowest result }
    {
        let mut least = lowest;
        for other in 0..row {
            least = least.min(self.shared(row, other));
        }
        least
    }

    // 32: the lowest line, with its lowest level.
    pub(crate) fn overlaps(&self) -> Result<(), Refusal>
        ensures { result ≡ line_rules self.now.words.now (overlap_rule self.now.words.now) }
    {
        let mut lowest = PAST_ALL;
        for row in 0..self.rows() {
            lowest = self.lowest_shared(row, lowest);
        }
        if lowest < PAST_ALL {
            return Err(Refusal::LinesOverlap((lowest / 65536) as u16, (lowest % 65536) as u16));
        }
        Ok(())
    }
}
