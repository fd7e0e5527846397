// The test of triangles and fans together, in one reading of the triangles and one walk round each vertex.
ghost use Rattle.std.specs.Prelude.{◌≡◌, ◌≤◌};
ghost use Rattle.tables.specs.Lent.{seen, topology_with};
ghost use Rattle.rings.specs.Walks.{Zeroed};
ghost use Rattle.sides.specs.Parts.{Room};
ghost use Rattle.soundness.specs.Parts.{is_surface, start_if};

use rings::walks::fans;
use sides::triangles_fit;
use tables::{Counts, View};

// The side where the ring of v starts, or the number of sides, where v has no ring; none where some triangle does not
// fit or some vertex has not one fan. A zero for each vertex is lent to keep one more than its start.
fn start_by(view: &View, counts: Counts, v: u32, starts: &mut [u32]) -> Option<u32>
    requires room { Room counts.triangles (seen view.now) × (counts.vertices ≤ 32768) }
    requires zeroed { Zeroed counts.vertices starts.old }
    ensures { let m = topology_with counts (seen view.now) in result ≡ start_if (is_surface m) m v }
{
    if !triangles_fit(view, counts, starts) {
        return None;
    }
    if !fans(view.links, counts.triangles, counts.vertices, starts) {
        return None;
    }
    if counts.vertices <= v {
        return Some(3 * counts.triangles);
    }
    Some(starts[v as usize] - 1)
}

// The same for up to N vertices, of which there are no more than 32,768.
#[inline(never)]
fn start_within<const N: usize>(view: &View, counts: Counts, v: u32) -> Option<u32>
    requires room { Room counts.triangles (seen view.now) }
    requires slots { (counts.vertices ≤ N) × (N ≤ 32768) }
    ensures { let m = topology_with counts (seen view.now) in result ≡ start_if (is_surface m) m v }
{
    let mut starts = [0u32; N];
    start_by(view, counts, v, &mut starts)
}

// The same for all. A small mesh has little to clear.
// Kept: the room is chosen by the size, and no const argument can be computed from it.
pub fn start(view: &View, counts: Counts, v: u32) -> Option<u32>
    requires { Room counts.triangles (seen view.now) × (counts.vertices ≤ 32768) }
    ensures { let m = topology_with counts (seen view.now) in result ≡ start_if (is_surface m) m v }
{
    if counts.vertices <= 128 {
        return start_within::<128>(view, counts, v);
    }
    if counts.vertices <= 2048 {
        return start_within::<2048>(view, counts, v);
    }
    start_within::<32768>(view, counts, v)
}
