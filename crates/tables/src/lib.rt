// The lent tables: triangles and points read from their slots and stored in them.
#![tactic(auto)]

ghost use Rattle.std.specs.Prelude.{List, ◌≡◌, ℕ, ◌+◌, ◌*◌, ◌/◌, ◌≤◌, ◌<◌, length, get_or};
ghost use Rattle.rules.specs.Calls.{room_for};
ghost use Rattle.rules.specs.Split.{new_unlocked};
ghost use Rattle.rules.specs.Tables.{put_three, relink};
ghost use Rattle.tables.specs.Refusals.{number};
ghost use Rattle.tables.specs.declared.Counts.{Counts};
ghost use Rattle.tables.specs.Lent.{held, seen, mesh_with, topology_with, topology_now, SameSizes, SameBeside};
ghost use Rattle.tables.specs.Lent.{TrianglesAgree, VerticesAgree, triangle_at, entries, put, point_in, put_point};

use crate::refusals::Refusal;
use points::Point;

pub mod copies;
pub mod refusals;
pub mod sides;

// The five tables of a mesh, lent for writing.
#[derive(Drop)]
pub struct Tables<'a> {
    pub positions: &'a mut [i32],
    pub corners: &'a mut [u32],
    pub links: &'a mut [u32],
    pub generations: &'a mut [u8],
    pub locks: &'a mut [u8],
}

// The same tables, lent for reading.
#[derive(Clone, Copy)]
pub struct View<'a> {
    pub positions: &'a [i32],
    pub corners: &'a [u32],
    pub links: &'a [u32],
    pub generations: &'a [u8],
    pub locks: &'a [u8],
}

// The slots in use, which are the first of their tables, and the rule of rounding, 1 or 2.
// Kept: the C interface: the rule of rounding is a number there, of which the theorems speak.
#[repr(C)]
#[derive(Clone, Copy, PartialEq, Eq)]
pub struct Counts {
    pub vertices: u32,
    pub triangles: u32,
    pub rule: u32,
}

// The answer of a call that may change the mesh: on a refusal all but its number and the counts is 0.
// Kept: the C interface answers a number, 0 for none.
#[repr(C)]
#[derive(Clone, Copy)]
pub struct Worked {
    pub refusal: u32,
    pub splits: u32,
    pub flips: u32,
    pub counts: Counts,
}

impl Worked {
    // The answer of such a call that is carried out without a split.
    pub fn done(counts: Counts) -> Self
        ensures { result ≡ record {
          refusal = 0;
          splits = 0;
          flips = 0;
          counts = counts;
        } }
    {
        Self {
            refusal: 0,
            splits: 0,
            flips: 0,
            counts,
        }
    }

    // The answer of one that is refused.
    pub fn refused(refusal: Refusal, counts: Counts) -> Self
        ensures { result ≡ record {
          refusal = number refusal;
          splits = 0;
          flips = 0;
          counts = counts;
        } }
    {
        Self {
            refusal: refusal.number(),
            splits: 0,
            flips: 0,
            counts,
        }
    }
}

// What a side without a partner links to.
pub const BOUNDARY: u32 = 4294967295;

// Side i runs from corner i to the next, and links[i] is the side across it or the boundary.
#[derive(Clone, Copy)]
pub struct Triangle {
    pub corners: [u32; 3],
    pub links: [u32; 3],
    pub generation: u8,
}

impl View<'_> {
    // The triangle in slot t.
    pub fn triangle_at(&self, t: u32) -> Triangle
        requires { TrianglesAgree (seen self.now) × (t < length self.now.generations.now) }
        ensures { (n : Counts) → result ≡ triangle_at (topology_with n (seen self.now)) t }
    {
        let slot = t as usize;
        let i = 3 * slot;
        let c = [self.corners[i], self.corners[i + 1], self.corners[i + 2]];
        let l = [self.links[i], self.links[i + 1], self.links[i + 2]];
        Triangle {
            corners: c,
            links: l,
            generation: self.generations[slot],
        }
    }

    // Whether there are slots for so many splits. Each makes two triangles and a vertex, and the rim splits among them
    // a vertex more.
    pub fn has_room(&self, counts: Counts, splits: u32, rim: u32) -> bool
        ensures { result ≡ room_for (splits + rim) (2 * splits) (mesh_with counts (seen self.now)) }
    {
        let vertices = counts.vertices as u64 + (splits as u64 + rim as u64);
        let triangles = counts.triangles as u64 + 2 * (splits as u64);
        vertices <= self.positions.len() as u64 / 3 && triangles <= self.generations.len() as u64
    }
}

impl Tables<'_> {
    // The tables as they stand, for reading.
    pub fn view(&self) -> View<'_>
        ensures same { seen result ≡ held self.now }
        ensures sizes { SameSizes (seen result) (held self.now) }
    {
        View {
            positions: self.positions,
            corners: self.corners,
            links: self.links,
            generations: self.generations,
            locks: self.locks,
        }
    }

    // The triangle in slot t.
    pub fn triangle_at(&self, t: u32) -> Triangle
        requires { TrianglesAgree (held self.now) × (t < length self.now.generations.now) }
        ensures { (n : Counts) → result ≡ triangle_at (topology_with n (held self.now)) t }
    {
        self.view().triangle_at(t)
    }

    // The triangle x stored in slot t.
    pub fn store(&mut self, t: u32, x: Triangle)
        requires { TrianglesAgree (held self.old) × (t < length self.old.generations.now) }
        ensures stored { (n : Counts) →
            topology_with n (held self.new) ≡ put t x (topology_with n (held self.old)) }
        ensures rest { SameBeside self.new self.old }
    {
        let c = x.corners;
        let l = x.links;
        store_three(self.corners, t, c);
        store_three(self.links, t, l);
        self.generations[t as usize] = x.generation;
    }

    // Side h linked to side k. The boundary has no slot, so that nothing is written where h is the boundary.
    pub fn relink(&mut self, h: u32, k: u32)
        ensures linked { (n : Counts) → topology_with n (held self.new) ≡ relink h k (topology_with n (held self.old)) }
        ensures rest { SameBeside self.new self.old }
    {
        let i = h as usize;
        if i < self.links.len() {
            self.links[i] = k;
        }
    }
}

// What side 0 of slot t links to; 0 past the table.
pub fn base_link(links: &[u32], t: u32) -> u32
    ensures { result ≡ get_or links.now (3 * t) 0 }
{
    links.get(3 * (t as usize)).copied().unwrap_or(0)
}

// The generation of the triangle in slot t; 0 past the table.
pub fn generation_at(generations: &[u8], t: u32) -> u8
    ensures { result ≡ get_or generations.now t 0 }
{
    generations.get(t as usize).copied().unwrap_or(0)
}

// Three numbers stored in slot t of a table.
pub fn store_three<T: Copy>(table: &mut [T], t: u32, x: [T; 3])
    requires { 3 * t + 2 < length table.old }
    ensures { (none : T) →
        table.new ≡ put_three t (get_or x 0 none, get_or x 1 none, get_or x 2 none) table.old }
{
    let i = 3 * (t as usize);
    table[i] = x[0];
    table[i + 1] = x[1];
    table[i + 2] = x[2];
}

// The locks of slot f and the next cleared, which are the new slots of a split.
pub fn unlock_two(locks: &mut [u8], f: u32)
    requires { f + 2 ≤ length locks.old }
    ensures { locks.new ≡ new_unlocked f locks.old }
{
    let slot = f as usize;
    locks[slot] = 0;
    locks[slot + 1] = 0;
}

// The point in slot v of a table that has this slot.
pub fn point_in(table: &[i32], v: u32) -> Point
    requires { v < length table.now / 3 }
    ensures { result ≡ point_in table.now v }
{
    let i = 3 * (v as usize);
    Point::new(table[i], table[i + 1], table[i + 2])
}

// The point in vertex slot v; zero past the table.
pub fn point_at(positions: &[i32], v: u32) -> Point
    requires { VerticesAgree positions.now }
    ensures { result ≡ point_in positions.now v }
{
    let i = 3 * (v as usize);
    if i < positions.len() {
        Point {
            x: positions[i],
            y: positions[i + 1],
            z: positions[i + 2],
        }
    } else {
        Point { x: 0, y: 0, z: 0 }
    }
}

// The point p stored in vertex slot v.
pub fn store_point(positions: &mut [i32], v: u32, p: Point)
    requires { 3 * v + 2 < length positions.old }
    ensures { positions.new ≡ put_point v p positions.old }
{
    store_three(positions, v, [p.x, p.y, p.z]);
}
