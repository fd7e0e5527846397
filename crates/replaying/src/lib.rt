// A journal replayed on lent tables.
#![tactic(auto)]

ghost use Rattle.std.specs.Prelude.{◌≡◌, length};
ghost use Rattle.tables.specs.Lent.{held, mesh_with, SameTables};
ghost use Rattle.journal.specs.Replay.{replay};
ghost use Rattle.redoing.specs.Replaying.{replay_told};

use journal::stops::Stop;
use redoing::{Progress, Replayed};
use tables::{Counts, Tables};

// Replays a journal from a place on, or from its first record where the place is before it: makes the calls of its
// records in order, up to the first that is not whole or is refused.
pub fn replay(
    tables: &mut Tables,
    counts: Counts,
    spares: &mut Tables,
    numbers: &mut [u32],
    bytes: &[u8],
    at: usize,
) -> Replayed
    ensures replayed { replay_told result (mesh_with result.counts (held tables.new))
        ≡ replay (record { spares = held spares.old; numbers = length numbers.old }) bytes.now at
        (mesh_with counts (held tables.old)) }
    ensures lent { SameTables tables.new tables.old }
    ensures spares_lent { SameTables spares.new spares.old }
{
    let view = tables.view();
    let vertex_slots = view.positions.len() / 3;
    let triangle_slots = view.generations.len();
    if let Err(stop) = journal::stops::read_header(bytes, vertex_slots, triangle_slots) {
        let none = Progress {
            counts,
            records: 0,
            end: 0,
            next: Err(stop),
        };
        return none.told();
    }
    let start = journal::stops::first_record(at);
    if bytes.len() <= start {
        let none = Progress {
            counts,
            records: 0,
            end: start,
            next: Err(Stop::End),
        };
        return none.told();
    }
    let stands = soundness::first_refusal(&tables.view(), counts);
    let all = repeating::replay_all(tables, counts, spares, numbers, stands, &bytes[start..]);
    Replayed {
        end: start + all.end,
        ..all
    }
}
