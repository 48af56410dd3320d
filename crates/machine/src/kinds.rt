// A call of each kind, made by the exported library on program, store, device words and totals.
ghost use Rattle.std.specs.Prelude.{length, drop, ◌≡◌};
ghost use Rattle.exports.specs.Exported.{host_state};
ghost use Rattle.lines.specs.Lines.{check as table_check_of};
ghost use Rattle.model.specs.Burst.{carried, single};
ghost use Rattle.model.specs.Check.{check as check_of};
ghost use Rattle.model.specs.Device.{off};
ghost use Rattle.model.specs.Program.{word as word_of};
ghost use Rattle.model.specs.declared.Answer.{Answer};
ghost use Rattle.words.specs.Words.{device_words, answer_words, checked_words};
ghost use Rattle.machine.specs.Machine.{formats, boots, posts, steps as steps_of, runs, raises};
ghost use Rattle.machine.specs.Makes.{made_of, told_as};

use crate::Called;

// No word was stored: the answer's sixth word, as include/runtime.h has it.
const NOTHING: u16 = 65535;

// What is told in five words tells no store.
fn told(answer: [u16; 5], steps: u32, device: [u16; 26], totals: [u32; 3]) -> Called
    ensures { result ≡ told_as answer steps device totals }
{
    Called {
        answer: [
            answer[0], answer[1], answer[2], answer[3], answer[4], NOTHING,
        ],
        steps,
        device,
        totals,
    }
}

pub fn check(program: &[u16], device: [u16; 26], totals: [u32; 3]) -> Called
    ensures { result ≡ told_as (checked_words (check_of program.now)) 0 device totals }
{
    let mut answer = [0u16; 5];
    exports::runtime_check(program, &mut answer);
    told(answer, 0, device, totals)
}

pub fn format(
    program: &[u16],
    store: &mut [u16],
    device: [u16; 26],
    totals: [u32; 3],
    numbers: &[u16],
) -> Called
    ensures { made_of result store.new
        ≡ formats program.now (host_state store.old device totals) (word_of numbers.now 0) (word_of numbers.now 1) }
{
    let log_pairs = crate::word(numbers, 0);
    let queue_records = crate::word(numbers, 1);
    let mut answer = [0u16; 5];
    exports::runtime_format(program, log_pairs, queue_records, store, &mut answer);
    told(answer, 0, device, totals)
}

pub fn boot(program: &[u16], store: &[u16], device: [u16; 26], totals: [u32; 3]) -> Called
    ensures { made_of result store.now ≡ boots program.now (host_state store.now device totals) }
{
    let mut state = device;
    let mut answer = [0u16; 5];
    exports::runtime_boot(program, store, &mut state, &mut answer);
    told(answer, 0, state, totals)
}

pub fn step(program: &[u16], store: &mut [u16], device: [u16; 26], totals: [u32; 3]) -> Called
    ensures { made_of result store.new ≡ steps_of program.now (host_state store.old device totals) }
{
    let mut state = device;
    let mut counted = totals;
    let mut answer = [0u16; 6];
    exports::runtime_step(program, store, &mut state, &mut counted, &mut answer);
    Called {
        answer,
        steps: 0,
        device: state,
        totals: counted,
    }
}

pub fn cut(device: [u16; 26], totals: [u32; 3]) -> Called
    ensures { result ≡ told_as (answer_words Answer.Done) 0 (device_words off) totals }
{
    let mut state = device;
    let mut answer = [0u16; 5];
    exports::runtime_cut(&mut state, &mut answer);
    told(answer, 0, state, totals)
}

pub fn post(
    program: &[u16],
    store: &[u16],
    device: [u16; 26],
    totals: [u32; 3],
    numbers: &[u16],
) -> Called
    ensures { made_of result store.now
        ≡ posts program.now (host_state store.now device totals)
        (single (word_of numbers.now 0) (word_of numbers.now 1)) }
{
    let event = crate::word(numbers, 0);
    let datum = crate::word(numbers, 1);
    let mut state = device;
    let mut answer = [0u16; 5];
    exports::runtime_post(program, store, &mut state, event, datum, &mut answer);
    told(answer, 0, state, totals)
}

// The eight words of the burst stand behind the count.
pub fn burst(
    program: &[u16],
    store: &[u16],
    device: [u16; 26],
    totals: [u32; 3],
    numbers: &[u16],
) -> Called
    requires { length numbers.now ≡ 9 }
    ensures { made_of result store.now
        ≡ posts program.now (host_state store.now device totals)
        (carried (drop 1 numbers.now) (word_of numbers.now 0)) }
{
    let words = [
        numbers[1], numbers[2], numbers[3], numbers[4], numbers[5], numbers[6], numbers[7],
        numbers[8],
    ];
    let mut state = device;
    let mut answer = [0u16; 5];
    exports::runtime_burst(program, store, &mut state, numbers[0], &words, &mut answer);
    told(answer, 0, state, totals)
}

pub fn run(
    program: &[u16],
    store: &mut [u16],
    device: [u16; 26],
    totals: [u32; 3],
    budget: u32,
) -> Called
    ensures { made_of result store.new ≡ runs program.now (host_state store.old device totals) budget }
{
    let mut state = device;
    let mut counted = totals;
    let mut answer = [0u16; 5];
    let steps = exports::runtime_run(
        program,
        store,
        &mut state,
        &mut counted,
        budget,
        &mut answer,
    );
    told(answer, steps, state, counted)
}

pub fn lines_check(table: &[u16], device: [u16; 26], totals: [u32; 3]) -> Called
    ensures { result ≡ told_as (checked_words (table_check_of table.now)) 0 device totals }
{
    let mut answer = [0u16; 5];
    exports::runtime_lines_check(table, &mut answer);
    told(answer, 0, device, totals)
}

// The table stands behind line and level.
pub fn raise(
    program: &[u16],
    store: &[u16],
    device: [u16; 26],
    totals: [u32; 3],
    numbers: &[u16],
) -> Called
    ensures { made_of result store.now
        ≡ raises program.now (host_state store.now device totals) (drop 2 numbers.now)
        (word_of numbers.now 0) (word_of numbers.now 1) }
{
    let line = crate::word(numbers, 0);
    let level = crate::word(numbers, 1);
    let start = numbers.len().min(2);
    let mut state = device;
    let mut answer = [0u16; 5];
    exports::runtime_raise(
        program,
        store,
        &mut state,
        &numbers[start..],
        line,
        level,
        &mut answer,
    );
    told(answer, 0, state, totals)
}
