// A note tried in the smallest of eight rooms that holds the mesh: to clear a larger one would take longer than the
// work.
ghost use Rattle.std.specs.Prelude.{◌≡◌, ◌*◌, ◌≤◌};
ghost use Rattle.rules.specs.Sound.{Sound};
ghost use Rattle.tables.specs.Lent.{mesh_with, seen};
ghost use Rattle.restoring.specs.Fitting.{NoteFits};
ghost use Rattle.undoing.specs.Trying.{accepted_cut};

use crate::trying::accepts_in;
use tables::{Counts, View};

// Whether a note is accepted, tried in tables for so many coordinates, sides and triangles. A room keeps a frame of its
// own, so that a small mesh does not touch the pages of a great one.
#[inline(never)]
fn accepts_within<const COORDINATES: usize, const SIDES: usize, const TRIANGLES: usize>(
    view: &View,
    counts: Counts,
    note: &[u32],
) -> bool
    requires note_fits { NoteFits note.now }
    requires sound { Sound (mesh_with counts (seen view.now)) }
    requires no_greater { (COORDINATES ≤ 98304) × (SIDES ≤ 196608) × (TRIANGLES ≤ 65536) }
    requires coordinates { 3 * counts.vertices ≤ COORDINATES }
    requires sides { 3 * counts.triangles ≤ SIDES }
    requires triangles { counts.triangles ≤ TRIANGLES }
    ensures { result ≡ accepted_cut note.now (mesh_with counts (seen view.now)) }
{
    let mut positions = [0i32; COORDINATES];
    let mut corners = [0u32; SIDES];
    let mut links = [0u32; SIDES];
    let mut generations = [0u8; TRIANGLES];
    let mut locks = [0u8; TRIANGLES];
    accepts_in(
        view,
        counts,
        note,
        &mut positions,
        &mut corners,
        &mut links,
        &mut generations,
        &mut locks,
    )
}

// The same for all. But for the second, a room is at most three times the one below, so that clearing it takes less than
// a test of soundness.
// Kept: the room is chosen by the size, and no const argument can be computed from it.
pub fn accepts(view: &View, counts: Counts, note: &[u32]) -> bool
    requires note_fits { NoteFits note.now }
    requires sound { Sound (mesh_with counts (seen view.now)) }
    ensures { result ≡ accepted_cut note.now (mesh_with counts (seen view.now)) }
{
    match counts.vertices.max(counts.triangles) {
        0..=32 => accepts_within::<96, 96, 32>(view, counts, note),
        33..=160 => accepts_within::<480, 480, 160>(view, counts, note),
        161..=400 => accepts_within::<1200, 1200, 400>(view, counts, note),
        401..=1200 => accepts_within::<3600, 3600, 1200>(view, counts, note),
        1201..=3000 => accepts_within::<9000, 9000, 3000>(view, counts, note),
        3001..=8000 => accepts_within::<24000, 24000, 8000>(view, counts, note),
        8001..=22000 => accepts_within::<66000, 66000, 22000>(view, counts, note),
        _ => accepts_within::<98304, 196608, 65536>(view, counts, note),
    }
}
