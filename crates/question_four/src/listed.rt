// A list of calls in words: steps are counted, the other calls stand singly.
use super::node::Call;
use super::{cells, node, text};
use std::io;

pub fn listed(out: &impl Print, calls: &[u8]) -> io::Result<()> {
    // The steps of a row of them, which are told with its last one.
    let mut steps = 0;
    for (i, name) in calls.iter().enumerate() {
        if i > 0 && steps == 0 {
            text::put(out, b", ")?;
        }
        let call = Call::named(*name);
        if call != Call::Step {
            cells::call(out, call, 0)?;
            continue;
        }
        steps = node::one_more(steps);
        if let Some(b's') = calls.get(i + 1) {
            continue;
        }
        text::decimal(out, steps)?;
        text::put(out, b" steps")?;
        steps = 0;
    }
    Ok(())
}

// The calls that precede a table's first row.
pub fn before(out: &impl Print, calls: &[u8]) -> io::Result<()> {
    if calls.is_empty() {
        return Ok(());
    }
    text::put(out, b"Before the first row: ")?;
    listed(out, calls)?;
    text::line(out, b".")
}

// The calls that follow its last row.
pub fn behind(out: &impl Print, calls: &[u8]) -> io::Result<()> {
    text::put(out, b"Afterwards")?;
    if !calls.is_empty() {
        text::put(out, b", ")?;
        listed(out, calls)?;
        text::put(out, b" on")?;
    }
    text::line(out, b":")
}
