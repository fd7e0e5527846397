// The next record of a journal, made again on lent tables.
#![tactic(auto)]

ghost use Rattle.std.specs.Prelude.{◌≡◌, length, drop, IfOk};
ghost use Rattle.tables.specs.Lent.{held, mesh_with, SameTables};
ghost use Rattle.tables.specs.Refusals.{refused};
ghost use Rattle.tables.specs.Standing.{standing};
ghost use Rattle.journal.specs.Journal.{stop_at};
ghost use Rattle.journal.specs.Stops.{IsRecord};
ghost use Rattle.redoing.specs.Replaying.{told, Ready, MakesNext};

use journal::kinds::Kind;
use journal::stops::{Record, Stop};
use tables::refusals::Refusal;
use tables::{Counts, Tables};

// The answer of a replay: the counts, why it stopped, what the next record's call is refused with, how many records
// were replayed, and where the next one starts.
// Kept: the C interface answers numbers.
#[repr(C)]
#[derive(Clone, Copy)]
pub struct Replayed {
    pub counts: Counts,
    pub stop: u32,
    pub refusal: u32,
    pub records: usize,
    pub end: usize,
}

// A replay on its way: the counts, how many records were replayed, where the next one starts, and what is there, or why
// the replay stops.
#[derive(Clone, Copy)]
pub struct Progress {
    pub counts: Counts,
    pub records: usize,
    pub end: usize,
    pub next: Result<Record, Stop>,
}

impl Progress {
    // What C is told of it.
    // Kept: no plainer: the contracts say `told` of it, and a From would say no more.
    pub fn told(self) -> Replayed
        ensures { result ≡ told self }
    {
        let (stop, refusal) = match self.next {
            Ok(_) => (0, 0),
            Err(stop) => (stop.number(), stop.refusal()),
        };
        Replayed {
            counts: self.counts,
            stop,
            refusal,
            records: self.records,
            end: self.end,
        }
    }
}

// The record at a place where one is whole, so that nothing of it is tested again.
fn record_at(bytes: &[u8], at: usize) -> Record
    requires { stop_at (drop at bytes.now) ≡ 0 }
    ensures { IsRecord (drop at bytes.now) result }
{
    let size = points::number_at(bytes, at) as usize;
    let kind = Kind::try_from(points::number_at(bytes, at + 4)).unwrap();
    Record { kind, size }
}

// Replays the next record, which is whole, on a mesh that stands or is refused itself.
pub fn one_more(
    tables: &mut Tables,
    state: Progress,
    spares: &mut Tables,
    numbers: &mut [u32],
    stands: Result<(), Refusal>,
    bytes: &[u8],
) -> Progress
    requires stands_value { refused stands ≡ standing (mesh_with state.counts (held tables.old)) }
    requires ready { Ready bytes.now (told state) }
    ensures makes { MakesNext (record { spares = held spares.old; numbers = length numbers.old }) bytes.now
        (told state) (mesh_with state.counts (held tables.old))
        (told result) (mesh_with result.counts (held tables.new)) }
    ensures read { IfOk result.next (IsRecord (drop result.end bytes.now)) }
    ensures lent { SameTables tables.new tables.old }
    ensures spares_lent { SameTables spares.new spares.old }
{
    let next = record_at(bytes, state.end);
    if numbers.len() < making::numbers_of(next.kind, next.size) {
        return Progress {
            next: Err(Stop::Numbers),
            ..state
        };
    }
    let first = state.end + 12;
    let last = first + next.size;
    let body = &bytes[first..last];
    match making::make(
        tables,
        state.counts,
        spares,
        numbers,
        stands,
        next.kind,
        body,
    ) {
        Err(refusal) => Progress {
            next: Err(Stop::Refused(refusal)),
            ..state
        },
        Ok(counts) => {
            let end = last + 4;
            Progress {
                counts,
                records: state.records + 1,
                end,
                next: journal::stops::read_record(&bytes[end..]),
            }
        }
    }
}
