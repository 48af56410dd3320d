// Question four: power is cut after any call; what is left? The counting program and a transaction, cut at each point, and the blackboard's
// mistakes, each beside the right run. Everything in a row is what the runtime tells, or a word of the store.
// What is printed is held to the file `stdout`, which another implementation printed (conformance/, `screens`); it isn't proved.

#![tactic(auto)]

ghost use Rattle.std.specs.Prelude.{◌<◌, ◌^◌};

use beside::Lists;
use mistakes::Mistake;
use std::io;
use store::format;

mod beside;
mod cells;
mod listed;
mod mistakes;
mod node;
mod table;
mod text;
mod transaction;
mod words;

fn legend(out: &impl Print) -> io::Result<()> {
    text::line(
        out,
        b"Question four: power is cut after any call. What is left?",
    )?;
    text::line(out, b"")?;
    text::line(
        out,
        b"A row is a call. #: the steps so far. runs: an instruction, or choose, commit,",
    )?;
    text::line(
        out,
        b"handler. stores: the word's index, name and new value. ph, op: phase and open",
    )?;
    text::line(
        out,
        b"number after the call. If power is cut then, uncut recovery takes so many steps",
    )?;
    text::line(
        out,
        b"and leaves this memory and this record waiting; next is the body that runs",
    )?;
    text::line(
        out,
        b"then. T0 is task 0, E0 event 0; post 7 posts event 0 with data 7. Words are in",
    )?;
    text::line(
        out,
        b"hex, other numbers in decimal. L is 1; Q is 1, in screen 8 it is 2.",
    )
}

fn task(out: &impl Print) -> io::Result<()> {
    text::line(out, b"\n1. A task of the counting program")?;
    let program = cases::counting();
    table::table(out, &program, b"", b"bsssssssssssssss")
}

fn event(out: &impl Print) -> io::Result<()> {
    text::line(out, b"\n2. An event of the counting program")?;
    let program = cases::counting();
    table::table(out, &program, b"", b"b7sssssssssssss")
}

fn event_in_transaction(out: &impl Print) -> io::Result<()> {
    text::line(
        out,
        b"\n3. An event posted inside a transaction runs after it, cut or no cut",
    )?;
    text::line(
        out,
        b"T0 adds 1 to word 0 and T1 copies word 0 to word 1, both in transaction 1; T2",
    )?;
    text::line(
        out,
        b"goes on to itself. The event saves its data in word 0.",
    )?;
    let program = transaction::PROGRAM;
    table::table(
        out,
        &program,
        b"bsssssssss",
        b"ssssss7ssssssssssssssssssssssssss",
    )
}

fn event_while_begun(out: &impl Print) -> io::Result<()> {
    text::line(
        out,
        b"\n4. An event accepted while a task is begun runs after it, cut or no cut",
    )?;
    let program = cases::counting();
    table::table(out, &program, b"", b"bs7ssscbsssssssssssssss")
}

fn cut_in_recovery(out: &impl Print) -> io::Result<()> {
    text::line(
        out,
        b"\n5. A cut in the recovery from a cut: copying starts again at the first pair",
    )?;
    let program = cases::counting();
    table::table(out, &program, b"bsssssssss", b"scbsscbsssss")
}

fn cuts_in_post(out: &impl Print) -> io::Result<()> {
    text::line(
        out,
        b"\n6. Cuts among a post's three stores: after one, after two, after all",
    )?;
    let program = cases::counting();
    table::table(out, &program, b"", b"b7scb8sscb9ssscbs")
}

fn cuts_in_drop(out: &impl Print) -> io::Result<()> {
    text::line(
        out,
        b"\n7. A post to a full queue drops the oldest record: cuts among its four stores",
    )?;
    let program = cases::counting();
    table::table(out, &program, b"b7sss", b"8scb7sss8ssscb7sss8ssss")
}

// On formatted stores of so many words, with L 1.
fn beside_on<const WORDS: usize>(
    out: &impl Print,
    program: &[u16],
    queue_records: u16,
    mistake: Mistake,
    lists: Lists<'_>,
) -> io::Result<()>
    requires { WORDS < 2 ^ 16 }
{
    let mut right = [0u16; WORDS];
    let mut mistaken = [0u16; WORDS];
    let _ = format::format(program, 1, queue_records, &mut right);
    let _ = format::format(program, 1, queue_records, &mut mistaken);
    beside::beside(out, program, &mut right, &mut mistaken, mistake, lists)
}

// With Q 1, so of 25 words.
fn beside_one(
    out: &impl Print,
    program: &[u16],
    mistake: Mistake,
    lists: Lists<'_>,
) -> io::Result<()> {
    beside_on::<25>(out, program, 1, mistake, lists)
}

fn head_plus_one(out: &impl Print) -> io::Result<()> {
    text::line(
        out,
        b"\n8. Redoing an event's commit by adding one to head: two records go",
    )?;
    let program = cases::counting();
    beside_on::<27>(
        out,
        &program,
        2,
        Mistake::HeadPlusOneOnRedo,
        Lists {
            before: b"b7sss8ssssssss",
            shown: b"ssscbsssss",
            behind: b"",
        },
    )
}

fn tail_before_data(out: &impl Print) -> io::Result<()> {
    text::line(
        out,
        b"\n9. Storing tail before data: a cut accepts a stale record",
    )?;
    let program = cases::counting();
    beside_one(
        out,
        &program,
        Mistake::TailBeforeData,
        Lists {
            before: b"b7sssssssssssss8sssssssssssss",
            shown: b"9sscbs",
            behind: b"sssssssss",
        },
    )
}

fn phase_before_task(out: &impl Print) -> io::Result<()> {
    text::line(
        out,
        b"\n10. Clearing the phase before word 9: the task runs again (screen 3's program)",
    )?;
    let program = transaction::PROGRAM;
    beside_one(
        out,
        &program,
        Mistake::PhaseBeforeTask,
        Lists {
            before: b"bsssssssss",
            shown: b"ssscbsss",
            behind: b"ssssssssssssssssssssssss",
        },
    )
}

fn lost_count(out: &impl Print) -> io::Result<()> {
    text::line(
        out,
        b"\n11. Taking the log count at recovery from lost state, not word 11",
    )?;
    let program = cases::counting();
    beside_one(
        out,
        &program,
        Mistake::CountFromLostState,
        Lists {
            before: b"bsssssssss",
            shown: b"scbsssss",
            behind: b"",
        },
    )
}

fn lost_open(out: &impl Print) -> io::Result<()> {
    text::line(
        out,
        b"\n12. Serving an event after a cut in an open transaction (screen 3's program)",
    )?;
    let program = transaction::PROGRAM;
    beside_one(
        out,
        &program,
        Mistake::EventInOpenTransaction,
        Lists {
            before: b"bsssssssssssssss",
            shown: b"7ssscbs",
            behind: b"ssssssssssssssssssssss",
        },
    )
}

fn main(rt: HostRuntime) -> io::Result<()> {
    let out = &rt;
    legend(out)?;
    task(out)?;
    event(out)?;
    event_in_transaction(out)?;
    event_while_begun(out)?;
    cut_in_recovery(out)?;
    cuts_in_post(out)?;
    cuts_in_drop(out)?;
    text::line(
        out,
        b"\nFive mistakes, each beside the right run. A bar stands where they differ.",
    )?;
    head_plus_one(out)?;
    tail_before_data(out)?;
    phase_before_task(out)?;
    lost_count(out)?;
    lost_open(out)
}
