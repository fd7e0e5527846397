// The kinds of changes that a journal records.
ghost use Rattle.std.specs.Prelude.{◌≡◌};
ghost use Rattle.journal.specs.Journal.{is_kind};
ghost use Rattle.journal.specs.Kinds.{number_of, IsKindOf};

use crate::stops::Stop;

// A kind, with its number in a record.
#[derive(Clone, Copy, PartialEq, Eq)]
pub enum Kind {
    Load = 1,
    Refine = 2,
    WholeStep = 3,
    RefineList = 4,
    RefineBox = 5,
    Lock = 6,
    Unlock = 7,
    TakeBack = 8,
}

impl Kind {
    // Whether a change of this kind may have a body of this size.
    pub fn takes(self, size: u32) -> bool
        ensures { result ≡ is_kind (number_of self) size }
    {
        match self {
            Kind::Load => 4 <= size,
            Kind::Refine | Kind::Lock | Kind::Unlock => size == 4,
            Kind::WholeStep => size == 0,
            Kind::RefineList | Kind::TakeBack => size % 4 == 0,
            Kind::RefineBox => size == 28,
        }
    }
}

// The number of a kind.
impl From<Kind> for u32 {
    ghost from_gives = { λ kind number. number ≡ number_of kind };

    fn from(kind: Kind) -> u32 {
        kind as u32
    }
}

// The kind of a number; a replay stops at a number that is none's.
impl TryFrom<u32> for Kind {
    type Error = Stop;

    ghost try_from_gives = { IsKindOf };

    fn try_from(number: u32) -> Result<Kind, Stop> {
        match number {
            1 => Ok(Kind::Load),
            2 => Ok(Kind::Refine),
            3 => Ok(Kind::WholeStep),
            4 => Ok(Kind::RefineList),
            5 => Ok(Kind::RefineBox),
            6 => Ok(Kind::Lock),
            7 => Ok(Kind::Unlock),
            8 => Ok(Kind::TakeBack),
            _ => Err(Stop::NoKind),
        }
    }
}
