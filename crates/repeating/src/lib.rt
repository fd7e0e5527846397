// The records of a journal, made again one after the other.
#![tactic(auto)]

ghost use Rattle.std.specs.Prelude.{◌≡◌, length};
ghost use Rattle.tables.specs.Lent.{held, mesh_with, SameTables};
ghost use Rattle.tables.specs.Refusals.{refused};
ghost use Rattle.tables.specs.Standing.{standing};
ghost use Rattle.journal.specs.Replay.{replay_first};
ghost use Rattle.redoing.specs.Replaying.{replay_told};

use redoing::{Progress, Replayed};
use tables::refusals::Refusal;
use tables::{Counts, Tables};

// Replays records from the front of the bytes on, on a mesh that stands or is refused itself. What a call carries out
// is sound, so that it need not be tested again.
pub fn replay_all(
    tables: &mut Tables,
    counts: Counts,
    spares: &mut Tables,
    numbers: &mut [u32],
    stands: Result<(), Refusal>,
    bytes: &[u8],
) -> Replayed
    requires { refused stands ≡ standing (mesh_with counts (held tables.old)) }
    ensures replayed { replay_told result (mesh_with result.counts (held tables.new))
        ≡ replay_first (length bytes.now) (record { spares = held spares.old; numbers = length numbers.old })
        bytes.now
        (mesh_with counts (held tables.old)) }
    ensures lent { SameTables tables.new tables.old }
    ensures spares_lent { SameTables spares.new spares.old }
{
    let mut known = stands;
    let mut state = Progress {
        counts,
        records: 0,
        end: 0,
        next: journal::stops::read_record(bytes),
    };
    while state.next.is_ok() {
        state = redoing::one_more(tables, state, spares, numbers, known, bytes);
        known = Ok(());
    }
    state.told()
}
