// All rings of a mesh without boundary: how many entries each has, and the sum of their positions.
ghost use Rattle.std.specs.Prelude.{List, ◌≡◌, ℕ, ◌+◌, ◌*◌, ◌<◌};
ghost use Rattle.tables.specs.Lent.{mesh_now};
ghost use Rattle.rings.specs.Sums.{nothing, Closed, Cleared, RingsAdded};
ghost use Rattle.rings.specs.Sums.{SideFits, SideAdded, Summable, Summed, SidesAdded};

use points::Point;
use tables::Counts;

// Of the ring of a vertex, how many entries it has and the sum of their positions.
#[derive(Clone, Copy)]
pub struct RingSum {
    pub length: u8,
    pub sum: Point,
}

impl RingSum {
    // A ring of which nothing is known yet.
    pub fn nothing() -> Self
        ensures { result ≡ nothing }
    {
        Self {
            length: 0,
            sum: Point::new(0, 0, 0),
        }
    }
}

// A side counted where it comes from, and the position that it leads to added to the sum there; false where 12 are
// counted already.
fn add_side(positions: &[i32], from: u32, to: u32, rings: &mut [RingSum]) -> bool
    requires { SideFits positions.now from to rings.old }
    ensures { SideAdded positions.now from to rings.old rings.new result }
{
    let i = from as usize;
    let ring = rings[i];
    if 12 <= ring.length {
        return false;
    }
    let p = tables::point_in(positions, to);
    rings[i] = RingSum {
        length: ring.length + 1,
        sum: ring.sum.plus(p),
    };
    true
}

// Adds the three sides of triangle t to those of the triangles before it; false where a vertex has more than 12.
fn add_triangle(
    positions: &[i32],
    corners: &[u32],
    counts: Counts,
    t: u32,
    rings: &mut [RingSum],
) -> bool
    requires { Summable counts positions.now corners.now × (t < counts.triangles)
        × Summed (3 * t) counts.vertices positions.now corners.now rings.old }
    ensures { SidesAdded (3 * (t + 1)) counts positions.now corners.now rings.new result }
{
    let i = 3 * (t as usize);
    let a = corners[i];
    let b = corners[i + 1];
    let c = corners[i + 2];
    if !add_side(positions, a, b, rings) {
        return false;
    }
    if !add_side(positions, b, c, rings) {
        return false;
    }
    add_side(positions, c, a, rings)
}

// The length of each ring and the sum of its positions, where nothing is known at first. Where no side is on the
// boundary, a ring has the targets of all sides out of its vertex, so that one pass over the sides adds up every ring.
// It stops, with false, at a ring of more than 12 entries.
pub fn ring_sums(positions: &[i32], corners: &[u32], counts: Counts, rings: &mut [RingSum]) -> bool
    requires by_index { (l g k : List ℕ) × Closed (mesh_now counts positions.now corners.now l g k) }
    requires cleared { Cleared counts.vertices rings.old }
    ensures { (l g k : List ℕ) →
        let m = mesh_now counts positions.now corners.now l g k in
        Closed m → RingsAdded m rings.new result }
{
    for t in 0..counts.triangles {
        if !add_triangle(positions, corners, counts, t, rings) {
            return false;
        }
    }
    true
}
