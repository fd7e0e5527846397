// The fans of a cage whose sides are paired. The threads of the pairing tell how many triangles a vertex has, and where
// the walks may begin.
ghost use Rattle.std.specs.Prelude.{[], ℕ, ◌*◌, ◌≤◌, ◌<◌, length};
ghost use Rattle.theory.proofs.Numbers.Decide.{Decides};
ghost use Rattle.rules.specs.Conditions.{InnerOfTwo};
ghost use Rattle.rules.specs.Tables.{topology_of};
ghost use Rattle.rings.specs.Walks.{AllBegun};
ghost use Rattle.decoding.specs.Decoded.{decoded, Readable};
ghost use Rattle.pairing.specs.Fans.{TellsFit};
ghost use Rattle.pairing.specs.Pairing.{Threads};

use crate::threaded::Threaded;
use tables::BOUNDARY;

impl Threaded<'_> {
    // Whether v is off the boundary and has exactly two triangles: two sides out of it, neither on the boundary.
    fn inner_of_two(&self, links: &[u32], v: usize) -> bool
        requires link_room { 3 * self.now.triangles ≤ length links.now }
        requires v_in_use { v < self.now.vertices }
        ensures { Decides result (InnerOfTwo
            (topology_of self.now.vertices self.now.triangles self.now.corners.now links.now []) v) }
    {
        let h = self.heads[v] as usize;
        if h == 0 {
            return false;
        }
        let k = self.nexts[h - 1] as usize;
        if k == 0 {
            return false;
        }
        if self.nexts[k - 1] != 0 {
            return false;
        }
        if links[h - 1] == BOUNDARY {
            return false;
        }
        links[k - 1] != BOUNDARY
    }

    // Whether some vertex is such.
    fn some_inner_of_two(&self, links: &[u32]) -> bool
        requires { 3 * self.now.triangles ≤ length links.now }
        ensures { Decides result ((v : ℕ) × (v < self.now.vertices) × InnerOfTwo
            (topology_of self.now.vertices self.now.triangles self.now.corners.now links.now []) v) }
    {
        (0..self.vertices).any(|v| self.inner_of_two(links, v))
    }
}

// A side on the boundary in place of the head of each thread that has one.
// Kept: no heap: the room is arrays of fixed size, of which a cage takes the front.
fn begin_at_boundary(
    corners: &[u32],
    links: &[u32],
    triangles: usize,
    vertices: usize,
    heads: &mut [u32],
)
    requires readable { Readable vertices triangles corners.now }
    requires triangles_in_bounds { 3 * triangles ≤ length links.now }
    requires all_begun { AllBegun vertices corners.now links.now (3 * triangles) 0 heads.old }
    ensures { AllBegun vertices corners.now links.now (3 * triangles) (3 * triangles)
        heads.new }
{
    for h in 0..3 * triangles {
        if links[h] == BOUNDARY {
            heads[corners[h] as usize] = h as u32 + 1;
        }
    }
}

// Whether each vertex has one fan, and none a closed one of two triangles.
// Kept: no heap: the room is arrays of fixed size, of which a cage takes the front.
pub fn fit(
    corners: &[u32],
    links: &[u32],
    triangles: u32,
    vertices: u32,
    heads: &mut [u32],
    nexts: &[u32],
) -> bool
    requires readable { Readable vertices triangles corners.now × (vertices ≤ 32768) }
    requires triangles_in_bounds { 3 * triangles ≤ length links.now }
    requires threads { Threads (decoded vertices triangles corners.now) (3 * triangles) heads.old nexts.now }
    ensures { TellsFit vertices triangles corners.now links.now result }
{
    let cage = Threaded {
        corners,
        triangles: triangles as usize,
        vertices: vertices as usize,
        heads,
        nexts,
    };
    if cage.some_inner_of_two(links) {
        return false;
    }
    begin_at_boundary(corners, links, triangles as usize, vertices as usize, heads);
    rings::walks::fans(links, triangles, vertices, heads)
}
