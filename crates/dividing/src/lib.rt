// The children that a whole step puts in the place of the old triangles, one for each old side, and the new vertices.
// A child depends on its own old triangle alone, so that one pass writes them all in place.
#![tactic(auto)]

ghost use Rattle.std.specs.Prelude.{true, false, List, ◌≡◌, ℕ, ◌+◌, ◌*◌, ◌/◌, ◌≤◌, ◌<◌, ℤ, length, get_or};
ghost use Rattle.points.specs.Axes.{each_axis};
ghost use Rattle.theory.proofs.Calls.Carried.{StepFound};
ghost use Rattle.theory.proofs.Links.Rows.{put_rows};
ghost use Rattle.theory.proofs.Steps.Children.{child_of};
ghost use Rattle.theory.proofs.Steps.Closed.{child_corners, child_links, with_centres, unlocked_new};
ghost use Rattle.rules.specs.Below.{fill};
ghost use Rattle.rules.specs.Split.{centre};
ghost use Rattle.rules.specs.Tables.{sides, put_three};
ghost use Rattle.tables.specs.declared.Counts.{Counts};
ghost use Rattle.tables.specs.Lent.{mesh_now, topology_now, entries};
ghost use Rattle.dividing.specs.Children.{partner_of, child_from, three_rows, Fits};

use points::Point;
use tables::Counts;

// What the partner of a side tells the child there: the centre of the partner's triangle, side 0 of the partner's child
// and side 2 of the child after it.
#[derive(Clone, Copy)]
struct Partner {
    centre: u32,
    base: u32,
    spoke: u32,
}

// What stands in the slot of a child, beside its generation.
#[derive(Clone, Copy)]
struct Child {
    corners: [u32; 3],
    links: [u32; 3],
}

// One of two numbers.
fn chosen(first: bool, a: u32, b: u32) -> u32
    ensures { result ≡ elim first [ true ↦ a | false ↦ b ] }
{
    if first { a } else { b }
}

// What partner k tells, where there are v vertices and f triangles. Both numbers are there before one is chosen, which
// needs no jump.
fn across(v: u32, f: u32, k: u32) -> Partner
    requires { (v ≤ 32768) × (3 * f ≤ 65536) × (k < 3 * f) }
    ensures { (result ≡ partner_of v f k) × (result.base < 196608) }
{
    let i = k % 3;
    let past = 3 * f + 2 * k + i;
    Partner {
        centre: v + k / 3,
        base: chosen(i == 0, k, past - 3),
        spoke: chosen(i == 2, k, past + 2),
    }
}

// The child at a side, from its origin to the centre across it and to the centre of its own triangle, by what the
// partners of the side and of the side before it tell.
fn child_at(origin: u32, centre: u32, own: Partner, before: Partner) -> Child
    requires { own.base < 196608 }
    ensures { result ≡ child_from origin centre own before }
{
    Child {
        corners: [origin, own.centre, centre],
        links: [own.spoke, own.base + 1, before.base],
    }
}

// A child stored in its slot.
fn store_child(corners: &mut [u32], links: &mut [u32], slot: u32, x: Child)
    requires { (3 * slot + 2 < length corners.old) × (3 * slot + 2 < length links.old) }
    ensures { (corners.new ≡ put_three slot (entries x.corners) corners.old)
        × (links.new ≡ put_three slot (entries x.links) links.old) }
{
    let i = 3 * (slot as usize);
    let c = x.corners;
    let l = x.links;
    corners[i] = c[0];
    corners[i + 1] = c[1];
    corners[i + 2] = c[2];
    links[i] = l[0];
    links[i + 1] = l[1];
    links[i + 2] = l[2];
}

// The children of t.
fn write_children(corners: &mut [u32], links: &mut [u32], counts: Counts, t: u32)
    requires { Fits counts t corners.old links.old }
    ensures { (g : List ℕ) →
        let d = topology_now counts corners.old links.old g in
        (corners.new ≡ three_rows t (child_of d) (child_corners d) corners.old)
        × (links.new ≡ three_rows t (child_of d) (child_links d) links.old) }
{
    let v = counts.vertices;
    let f = counts.triangles;
    let i = 3 * (t as usize);
    let p = v + t;
    let e = f + 2 * t;
    let ab = across(v, f, links[i]);
    let bc = across(v, f, links[i + 1]);
    let ca = across(v, f, links[i + 2]);
    let one = child_at(corners[i], p, ab, ca);
    let two = child_at(corners[i + 1], p, bc, ab);
    let three = child_at(corners[i + 2], p, ca, bc);
    store_child(corners, links, t, one);
    store_child(corners, links, e, two);
    store_child(corners, links, e + 1, three);
}

// The children of all triangles, in their slots.
pub fn write_all(corners: &mut [u32], links: &mut [u32], counts: Counts)
    requires { (p : List ℤ) × (g k : List ℕ) × StepFound (mesh_now counts p corners.old links.old g k) }
    ensures { (g : List ℕ) →
        let d = topology_now counts corners.old links.old g in
        (corners.new ≡ put_rows (sides d) (child_of d) (child_corners d) corners.old)
        × (links.new ≡ put_rows (sides d) (child_of d) (child_links d) links.old) }
{
    for t in 0..counts.triangles {
        write_children(corners, links, counts, t);
    }
}

// The first n triangles of generation g.
// Kept: no plainer: the counts say how much of C's table is in use, and the fill is the library's.
pub fn set_generations(generations: &mut [u8], n: usize, g: u8)
    requires { n ≤ length generations.old }
    ensures { generations.new ≡ fill n (λ _. g) generations.old }
{
    generations[..n].fill(g);
}

// The locks of the new slots of all f old triangles cleared.
pub fn unlock_new(locks: &mut [u8], f: u32)
    requires { (3 * f ≤ 65536) × (3 * f ≤ length locks.old) }
    ensures { locks.new ≡ unlocked_new f f locks.old }
{
    for t in 0..f {
        tables::unlock_two(locks, f + 2 * t);
    }
}

// The centre of t, whose corners have slots.
fn centre_in(positions: &[i32], corners: &[u32], t: u32) -> Point
    requires { (3 * t + 2 < length corners.now) × (get_or corners.now (3 * t) 0 < length positions.now / 3)
        × (get_or corners.now (3 * t + 1) 0 < length positions.now / 3)
        × (get_or corners.now (3 * t + 2) 0 < length positions.now / 3) }
    ensures { (n : Counts) (l g k : List ℕ) →
        result ≡ each_axis (centre (mesh_now n positions.now corners.now l g k) t) }
{
    let i = 3 * (t as usize);
    let a = tables::point_in(positions, corners[i]);
    let b = tables::point_in(positions, corners[i + 1]);
    let c = tables::point_in(positions, corners[i + 2]);
    Point::thirds(a, b, c)
}

// The centre of each triangle as a new vertex.
pub fn place_centres(positions: &mut [i32], corners: &[u32], counts: Counts)
    requires { (l g k : List ℕ) × StepFound (mesh_now counts positions.old corners.now l g k) }
    ensures { (l g k : List ℕ) → positions.new
        ≡ with_centres counts.triangles (mesh_now counts positions.old corners.now l g k) }
{
    let v = counts.vertices;
    for t in 0..counts.triangles {
        let p = centre_in(positions, corners, t);
        tables::store_point(positions, v + t, p);
    }
}
