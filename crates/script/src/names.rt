// The names of a list's lines.
ghost use Rattle.std.specs.Prelude.{◌≤◌, ◌<◌, ◌≡◌, None, length};
ghost use Rattle.script.specs.Script.{name_number, same as same_bytes};
ghost use Rattle.script.specs.Reads.{kind_of, number_of, text_of};

// A line's name, in the order of the page's table.
#[derive(Clone, Copy, PartialEq, Eq, Debug)]
pub enum Name {
    Program,
    Sizes,
    Totals,
    Check,
    Format,
    Boot,
    Step,
    Cut,
    Post,
    Burst,
    Run,
    LinesCheck,
    Raise,
    SetProgram,
    SetStore,
    ProgramLength,
    StoreLength,
    SetDevice,
    SetTotals,
    Keep,
    Restore,
}

const NAMES: [Name; 21] = [
    Name::Program,
    Name::Sizes,
    Name::Totals,
    Name::Check,
    Name::Format,
    Name::Boot,
    Name::Step,
    Name::Cut,
    Name::Post,
    Name::Burst,
    Name::Run,
    Name::LinesCheck,
    Name::Raise,
    Name::SetProgram,
    Name::SetStore,
    Name::ProgramLength,
    Name::StoreLength,
    Name::SetDevice,
    Name::SetTotals,
    Name::Keep,
    Name::Restore,
];

impl Name {
    // Its bytes in a list.
    #[tactic(auto, unfolding(crate::specs::Reads::text_of, crate::specs::Reads::number_of, crate::specs::Script::names))]
    pub fn text(self) -> &'static [u8]
        ensures text { result.now ≡ text_of self }
        ensures length_bound { length result.now ≤ 14 }
    {
        match self {
            Name::Program => b"program",
            Name::Sizes => b"sizes",
            Name::Totals => b"totals",
            Name::Check => b"check",
            Name::Format => b"format",
            Name::Boot => b"boot",
            Name::Step => b"step",
            Name::Cut => b"cut",
            Name::Post => b"post",
            Name::Burst => b"burst",
            Name::Run => b"run",
            Name::LinesCheck => b"lines-check",
            Name::Raise => b"raise",
            Name::SetProgram => b"set-program",
            Name::SetStore => b"set-store",
            Name::ProgramLength => b"program-length",
            Name::StoreLength => b"store-length",
            Name::SetDevice => b"set-device",
            Name::SetTotals => b"set-totals",
            Name::Keep => b"keep",
            Name::Restore => b"restore",
        }
    }
}

#[tactic(auto, using(crate::proofs::ReadingLaws::same_is))]
fn same(bytes: &[u8], others: &[u8]) -> bool
    ensures { result ≡ same_bytes bytes.now others.now }
{
    bytes == others
}

// The name that the bytes are, if a line has it.
pub fn named(bytes: &[u8]) -> Option<Name>
    ensures { kind_of result ≡ name_number bytes.now }
{
    for name in NAMES {
        if same(bytes, name.text()) {
            return Some(name);
        }
    }
    None
}

// A name's number, by the page's table.
#[tactic(auto, unfolding(crate::specs::Reads::number_of))]
pub fn number_of(name: Name) -> u64
    ensures { result ≡ number_of name }
{
    match name {
        Name::Program => 1,
        Name::Sizes => 2,
        Name::Totals => 3,
        Name::Check => 4,
        Name::Format => 5,
        Name::Boot => 6,
        Name::Step => 7,
        Name::Cut => 8,
        Name::Post => 9,
        Name::Burst => 10,
        Name::Run => 11,
        Name::LinesCheck => 12,
        Name::Raise => 13,
        Name::SetProgram => 14,
        Name::SetStore => 15,
        Name::ProgramLength => 16,
        Name::StoreLength => 17,
        Name::SetDevice => 18,
        Name::SetTotals => 19,
        Name::Keep => 20,
        Name::Restore => 21,
    }
}

// The name that has this number. None has 0, which stands for a name that hasn't ended, and none a number behind the last.
#[tactic(auto, unfolding(crate::specs::Reads::number_of))]
pub fn name_of(kind: u64) -> Option<Name>
    ensures known { kind ≤ 21 → kind_of result ≡ kind }
    ensures unknown { 21 < kind → result ≡ None }
{
    match kind {
        0 => None,
        1 => Some(Name::Program),
        2 => Some(Name::Sizes),
        3 => Some(Name::Totals),
        4 => Some(Name::Check),
        5 => Some(Name::Format),
        6 => Some(Name::Boot),
        7 => Some(Name::Step),
        8 => Some(Name::Cut),
        9 => Some(Name::Post),
        10 => Some(Name::Burst),
        11 => Some(Name::Run),
        12 => Some(Name::LinesCheck),
        13 => Some(Name::Raise),
        14 => Some(Name::SetProgram),
        15 => Some(Name::SetStore),
        16 => Some(Name::ProgramLength),
        17 => Some(Name::StoreLength),
        18 => Some(Name::SetDevice),
        19 => Some(Name::SetTotals),
        20 => Some(Name::Keep),
        21 => Some(Name::Restore),
        22.. => None,
    }
}
