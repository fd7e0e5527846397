// What a call can be refused with.
ghost use Rattle.std.specs.Prelude.{◌≡◌};
ghost use Rattle.tables.specs.Refusals.{number};

// The paper's refusals; no call answers 10.
#[derive(Clone, Copy, PartialEq, Eq)]
pub enum Refusal {
    TablesDisagree = 1,
    Sizes = 2,
    Corners = 3,
    Coordinates = 4,
    SideTwice = 5,
    Fans = 6,
    NotSound = 7,
    NotInUse = 8,
    Generation = 9,
    NoSlots = 11,
    NotUniform = 12,
    RingLong = 13,
    BufferShort = 14,
    TableLength = 15,
    Rule = 16,
    SpareSizes = 17,
    BoxUnfit = 18,
    Locked = 19,
    ViewShort = 20,
    Note = 21,
    NoteShort = 22,
    ReportShort = 23,
    NotOnRim = 24,
    CurveShort = 25,
}

impl Refusal {
    // Its number in the paper, as C reads it.
    // Kept: no plainer: the contracts say `number` of it, and a From would say no more.
    pub fn number(self) -> u32
        ensures { result ≡ number self }
    {
        self as u32
    }
}
