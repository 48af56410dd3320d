// What a host calls that lends its totals: "one record that the host lends and a step updates". The program and the words are lent too;
// the device goes by value. The call has no `requires`. A run takes its totals and returns them by value (crate runtime).

#![tactic(auto)]

ghost use Rattle.host.specs.Counts.{StepCounts};

use device::CallResult;
use model::{Device, Totals};

// A step, counted once it has answered, with the handler that it found: a refusal "changes no word, state or total".
pub fn step(program: &[u16], store: &mut [u16], device: Device, totals: &mut Totals) -> CallResult
    ensures { StepCounts program.now store.old device totals.old
        result store.new totals.new }
{
    let r = runtime::step(program, store, device);
    totals::count(totals, device.handler, r.answer, r.stored);
    r
}
