// The assembler: program words from a text, or its first mistake.

#![tactic(auto)]

ghost use Rattle.std.specs.Prelude.{◌≤◌, ◌≡◌, true, length};
ghost use Rattle.assembly.specs.Assembles.{AssemblesLines, Assembles};
ghost use Rattle.assembly.specs.Mistakes.{answers_known};
ghost use Rattle.tokens.specs.Reads.{AllKnown};
ghost use Rattle.tokens.specs.Tokens.{all_numbers};

use tokens::{SourceLine, Wrong};

mod emit;
pub mod lines;
mod mistakes;
mod place;
mod rules;
mod statement;

// What a mistake is. The first is one of crate tokens, in a line as it is read; the second is one of which a line has no more than a number, by how far
// that is past 7, and no text has it.
#[derive(Clone, Copy)]
pub enum MistakeKind {
    Reading(Wrong),
    Unknown(u64),
    NoStatement,
    WordCount,
    NameDue,
    NumberDue,
    LabelPlace,
    LabelTaken,
    InstructionPlace,
    TaskPlace,
    NameTaken,
    GivenAbove,
    NoTask,
    NoLabel,
    NoTransaction,
    NoMemory,
    NoEntry,
    ProgramLong,
    TaskCount,
    EventCount,
    MemorySize,
    NoTaskNumber,
    BodySize,
    TransactionLarge,
    RegisterLarge,
    ShiftLarge,
    AddressLarge,
    TargetLarge,
    GoPlace,
    DonePlace,
    BodyEnd,
    TextLong,
}

// A mistake, with its line, counted from 1.
#[derive(Clone, Copy)]
pub struct Mistake {
    pub line: usize,
    pub kind: MistakeKind,
}

impl Mistake {
    const TEXT_LONG: Mistake = Mistake {
        line: 1,
        kind: MistakeKind::TextLong,
    };
}

// How many program words the lines make, or their first mistake.
fn assemble_lines(lines: &[SourceLine], words: &mut [u16]) -> Result<usize, Mistake>
    requires some_line { 1 ≤ length lines.now }
    requires room_left { 65535 ≤ length words.old }
    ensures text { AssemblesLines (all_numbers lines.now) (length lines.now) words.new result }
    ensures known { AllKnown lines.now → answers_known result ≡ true }
{
    mistakes::mistake_of(lines)?;
    let count = emit::put_words(lines, words);
    let made = &words[..count];
    rules::rule_mistake(lines, made, program::check(made))?;
    Ok(count)
}

// How many program words a text makes, or its first mistake. The room is for its lines.
pub fn assemble(
    text: &[u8],
    room: &mut [SourceLine; 65536],
    words: &mut [u16; 65535],
) -> Result<usize, Mistake>
    ensures text { Assembles text.now words.new result }
    ensures known { answers_known result ≡ true }
{
    if text.len() > 1048576 {
        return Err(Mistake::TEXT_LONG);
    }
    let Some(count) = tokens::read(text, room) else {
        return Err(Mistake::TEXT_LONG);
    };
    assemble_lines(&room[..count], words)
}

#[cfg(test)]
mod tests {
    use super::*;

    #[test]
    fn answers_texts(rt: HostRuntime) {
        let mut room = [SourceLine::BLANK; 65536];
        let mut words = [0u16; 65535];
        let made = assemble(
            b"memory 1\nentry only\ntask only\n  GO only\n",
            &mut room,
            &mut words,
        );
        assert!(rt; matches!(made, Ok(11)));
        let wrong = assemble(b"memory 1\nbegin here\n", &mut room, &mut words);
        assert!(rt;
            matches!(
                wrong,
                Err(Mistake {
                    line: 2,
                    kind: MistakeKind::NoStatement
                })
            )
        );
    }
}
