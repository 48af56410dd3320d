// The functions that a bench links, from C or Rust: include/runtime.h declares them and docs/USING.md explains them. Each is the
// function of that name in crate exports, which says it in Rattle.

#![tactic(auto)]

ghost use Rattle.exports.specs.Exported.{host_state, Checks, Formats, Boots, Posts, Cuts, Steps, Runs};
ghost use Rattle.exports.specs.Exported.{LinesChecks, Raises};
ghost use Rattle.model.specs.Burst.{carried, single};

#[unsafe(no_mangle)]
pub extern "C" fn runtime_check(program: &[u16], answer: &mut [u16; 5])
    ensures { Checks program.now answer.new }
{
    exports::runtime_check(program, answer)
}

#[unsafe(no_mangle)]
pub extern "C" fn runtime_format(
    program: &[u16],
    log_pairs: u16,
    queue_records: u16,
    store: &mut [u16],
    answer: &mut [u16; 5],
)
    ensures { Formats program.now log_pairs queue_records store.old
        answer.new store.new }
{
    exports::runtime_format(program, log_pairs, queue_records, store, answer)
}

#[unsafe(no_mangle)]
pub extern "C" fn runtime_boot(
    program: &[u16],
    store: &[u16],
    device: &mut [u16; 26],
    answer: &mut [u16; 5],
)
    ensures { Boots program.now store.now device.old
        answer.new device.new }
{
    exports::runtime_boot(program, store, device, answer)
}

#[unsafe(no_mangle)]
pub extern "C" fn runtime_post(
    program: &[u16],
    store: &[u16],
    device: &mut [u16; 26],
    event: u16,
    datum: u16,
    answer: &mut [u16; 5],
)
    ensures { Posts program.now store.now device.old (single event datum)
        answer.new device.new }
{
    exports::runtime_post(program, store, device, event, datum, answer)
}

#[unsafe(no_mangle)]
pub extern "C" fn runtime_burst(
    program: &[u16],
    store: &[u16],
    device: &mut [u16; 26],
    count: u16,
    burst: &[u16; 8],
    answer: &mut [u16; 5],
)
    ensures { Posts program.now store.now device.old (carried burst.now count)
        answer.new device.new }
{
    exports::runtime_burst(program, store, device, count, burst, answer)
}

#[unsafe(no_mangle)]
pub extern "C" fn runtime_cut(device: &mut [u16; 26], answer: &mut [u16; 5])
    ensures { Cuts answer.new device.new }
{
    exports::runtime_cut(device, answer)
}

#[unsafe(no_mangle)]
pub extern "C" fn runtime_step(
    program: &[u16],
    store: &mut [u16],
    device: &mut [u16; 26],
    totals: &mut [u32; 3],
    answer: &mut [u16; 6],
)
    ensures { Steps program.now (host_state store.old device.old totals.old)
        answer.new (host_state store.new device.new totals.new) }
{
    exports::runtime_step(program, store, device, totals, answer)
}

#[unsafe(no_mangle)]
pub extern "C" fn runtime_run(
    program: &[u16],
    store: &mut [u16],
    device: &mut [u16; 26],
    totals: &mut [u32; 3],
    budget: u32,
    answer: &mut [u16; 5],
) -> u32
    ensures { Runs program.now (host_state store.old device.old totals.old) budget result
        answer.new (host_state store.new device.new totals.new) }
{
    exports::runtime_run(program, store, device, totals, budget, answer)
}

#[unsafe(no_mangle)]
pub extern "C" fn runtime_lines_check(table: &[u16], answer: &mut [u16; 5])
    ensures { LinesChecks table.now answer.new }
{
    exports::runtime_lines_check(table, answer)
}

#[unsafe(no_mangle)]
pub extern "C" fn runtime_raise(
    program: &[u16],
    store: &[u16],
    device: &mut [u16; 26],
    table: &[u16],
    line: u16,
    level: u16,
    answer: &mut [u16; 5],
)
    ensures { Raises program.now store.now device.old table.now line level
        answer.new device.new }
{
    exports::runtime_raise(program, store, device, table, line, level, answer)
}
