// Links of decoded corners: each side is matched with the opposite one, in time linear in the triangles. The fans that
// they make are tested in `fans`.
#![tactic(auto)]

ghost use Rattle.std.specs.Prelude.{◌≡◌, ◌*◌, ◌<◌, ◌≤◌, length, get_or};
ghost use Rattle.decoding.specs.Decoded.{decoded, Readable};
ghost use Rattle.rings.specs.Walks.{Zeroed};
ghost use Rattle.pairing.specs.Threaded.{threaded};
ghost use Rattle.pairing.specs.Pairing.{Threads, Stamps, Stamping, Stamped, Stamp, Linking, Paired};

use crate::threaded::Threaded;
use tables::BOUNDARY;
use tables::sides::{next, previous};

pub mod fans;
pub mod threaded;

// Threads the sides out of each vertex, from the last to the first.
// All numbers are one more than a side, and 0 ends a thread.
// Kept: no heap: the room is arrays of fixed size, of which a cage takes the front.
fn thread(corners: &[u32], triangles: usize, vertices: usize, heads: &mut [u32], nexts: &mut [u32])
    requires readable { Readable vertices triangles corners.now }
    requires heads_zeroed { Zeroed vertices heads.old }
    requires next_room { 3 * triangles ≤ length nexts.old }
    ensures { Threads (decoded vertices triangles corners.now) (3 * triangles) heads.new
        nexts.new }
{
    for h in 0..3 * triangles {
        let v = corners[h] as usize;
        nexts[h] = heads[v];
        heads[v] = h as u32 + 1;
    }
}

// The side out of v that is stamped at w, or the boundary.
// Kept: what it answers is written as a link, and the tables that C lends hold the boundary as a number.
fn stamped_at(corners: &[u32], slots: &[u32], v: usize, w: usize) -> u32
    requires w_in_bounds { w < length slots.now }
    requires side_in_bounds { get_or slots.now w 0 ≤ length corners.now }
    ensures { Stamp (λ k. get_or corners.now k 0) slots.now v w result }
{
    let s = slots[w];
    if s == 0 {
        return BOUNDARY;
    }
    let k = s - 1;
    if corners[k as usize] as usize == v {
        k
    } else {
        BOUNDARY
    }
}

impl Threaded<'_> {
    // Stamps each side out of v at its target. False where two have one target.
    // Kept: the loop goes down a thread and counts no index.
    fn stamp(&self, slots: &mut [u32], v: usize) -> bool
        requires stamps { Stamps (threaded self.now) v slots.old }
        requires v_in_use { v < self.now.vertices }
        ensures { Stamped (threaded self.now) v slots.new result }
    {
        let mut p = self.heads[v];
        while 0 < p {
            let h = p as usize - 1;
            let w = self.corners[next(h)] as usize;
            if stamped_at(self.corners, slots, v, w) != BOUNDARY {
                return false;
            }
            slots[w] = p;
            p = self.nexts[h];
        }
        true
    }

    // Links each side into v.
    // Kept: the loop goes down a thread and counts no index.
    fn join(&self, slots: &[u32], links: &mut [u32], v: usize)
        requires stamping { Stamping (threaded self.now) v 0 slots.now }
        requires linking { Linking (threaded self.now) v (3 * self.now.triangles) links.old }
        requires v_in_use { v < self.now.vertices }
        ensures { Linking (threaded self.now) v 0 links.new }
    {
        let mut p = self.heads[v];
        while 0 < p {
            let h = p as usize - 1;
            let k = previous(h);
            links[k] = stamped_at(self.corners, slots, v, self.corners[k] as usize);
            p = self.nexts[h];
        }
    }

    // Links the sides into each vertex in turn. False where a directed side occurs twice.
    fn join_all(&self, slots: &mut [u32], links: &mut [u32]) -> bool
        requires slots_zeroed { Zeroed self.now.vertices slots.old }
        requires link_room { 3 * self.now.triangles ≤ length links.old }
        ensures { Paired (threaded self.now) links.new result }
    {
        for v in 0..self.vertices {
            if !self.stamp(slots, v) {
                return false;
            }
            self.join(slots, links, v);
        }
        true
    }
}

// Links each side to the opposite one, or to the boundary. False where a directed side occurs twice.
// The sides out of each vertex are left threaded.
// Kept: no heap: the room is arrays of fixed size, of which a cage takes the front.
pub fn pair(
    corners: &[u32],
    triangles: usize,
    vertices: usize,
    heads: &mut [u32],
    nexts: &mut [u32],
    slots: &mut [u32],
    links: &mut [u32],
) -> bool
    requires readable { Readable vertices triangles corners.now }
    requires heads_zeroed { Zeroed vertices heads.old }
    requires next_room { 3 * triangles ≤ length nexts.old }
    requires slots_zeroed { Zeroed vertices slots.old }
    requires link_room { 3 * triangles ≤ length links.old }
    ensures paired { Paired (decoded vertices triangles corners.now) links.new result }
    ensures threads { Threads (decoded vertices triangles corners.now) (3 * triangles) heads.new
        nexts.new }
{
    thread(corners, triangles, vertices, heads, nexts);
    let cage = Threaded {
        corners,
        triangles,
        vertices,
        heads,
        nexts,
    };
    cage.join_all(slots, links)
}
