// The types of the runtime. What they mean is said in specs/, beside the sentences of document 01.
// There is no code here: the crates above have it, each function with a contract that cites specs/.

#![tactic(auto)]

// What a step runs: a task or an event, with its own number.
#[derive(Clone, Copy)]
pub enum Body {
    Task(u16),
    Event(u16),
}

// The handler of an interrupt. The burst that it works on stands beside it, in the device.
#[derive(Clone, Copy)]
pub enum Handler {
    Resting,
    // How many records its burst has, and how many of its stores are made.
    Storing(u16, u16),
    // About to drop the oldest record, and then to store its burst of one.
    Dropping,
    // It has dropped the oldest record: how many stores of its burst of one are made.
    Replacing(u16),
}

// Where the device stands.
#[derive(Clone, Copy)]
pub enum Place {
    // No body runs. In phases 1 and 2: how many of the stores that follow the commit store are made.
    Free(u16),
    // A body at an instruction. At GO and DONE: how many of the commit's first stores are made.
    Run(Body, u16, u16),
    // A body at a SAVE whose address is stored and whose value is not.
    Half(Body, u16),
}

// The device state, which a cut loses. The burst is that of a handler at work, event and data in turn, and 0 behind its last record.
#[derive(Clone, Copy)]
pub struct Device {
    pub on: bool,
    pub registers: [u16; 8],
    pub place: Place,
    pub count: u16,
    pub handler: Handler,
    pub burst: [u16; 8],
}

impl Device {
    // The state after a cut.
    pub const OFF: Device = Device {
        on: false,
        registers: [0; 8],
        place: Place::Free(0),
        count: 0,
        handler: Handler::Resting,
        burst: [0; 8],
    };
}

// Why a call is refused. specs/Answer.antt has each case's number and place.
#[derive(Clone, Copy)]
pub enum Refusal {
    ProgramLength,
    ProgramMark,
    ProgramSize(u16),
    Row(u16),
    Instruction(u16, u16),
    StoreContents,
    Control(u16),
    NoEvent(u16),
    StoreSize,
    HandlerBusy,
    QueueFull,
    PowerOff,
    Address,
    LogFull,
    State,
    PowerOn,
    LinesRow(u16),
    LinesGap(u16, u16),
    LinesOverlap(u16, u16),
    BurstLength,
}

// A record of the queue or of a burst: an event's number and its data.
#[derive(Clone, Copy)]
pub struct Record {
    pub event: u16,
    pub datum: u16,
}

// What a call answers. An acceptance tells the record that was dropped for it.
#[derive(Clone, Copy)]
pub enum Answer {
    Done,
    Chosen(Body),
    Worked,
    Stored,
    Committed(Body),
    Accepted(Option<Record>),
    Refused(Refusal),
}

// An instruction, by its opcode, with the fields that it uses.
#[derive(Clone, Copy)]
pub enum Instruction {
    Set(u16, u16),
    Move(u16, u16),
    Add(u16, u16),
    Sub(u16, u16),
    And(u16, u16),
    Or(u16, u16),
    Xor(u16, u16),
    Shift(u16, u16),
    Load(u16, u16),
    Save(u16, u16),
    LoadX(u16, u16, u16),
    SaveX(u16, u16, u16),
    Jump(u16),
    JumpZero(u16, u16),
    JumpLess(u16, u16, u16),
    Go(u16),
    Done,
    Unknown,
}

// What an instruction does, memory and log aside. An address is k + b as a whole number.
#[derive(Clone, Copy)]
pub enum Effect {
    // A register becomes a value.
    Compute(u16, u16),
    // The body goes on at an instruction.
    Jump(u16),
    // A register gets what an address shows.
    Load(u16, u32),
    // An address gets a value.
    Save(u32, u16),
    // The task ends, and names the next.
    EndTask(u16),
    // The event ends.
    EndEvent,
    Unknown,
}

// The host's totals: bodies committed, events accepted, stores made.
#[derive(Clone, Copy)]
pub struct Totals {
    pub committed: u32,
    pub accepted: u32,
    pub stores: u32,
}
