// The one pass over the triangles: their generations, corners and links, and the starts of the fans.
// A start is kept as one more than a side, and 0 is none.
#![tactic(auto)]

ghost use Rattle.std.specs.Prelude.{true, List, ◌≢◌, ◌≡◌, ℕ, ◌+◌, ◌*◌, ◌≤◌, ◌<◌, length, get_or};
ghost use Rattle.rules.specs.Below.{all};
ghost use Rattle.rules.specs.Sound.{role_of, five_kinds};
ghost use Rattle.rules.specs.Tables.{boundary};
ghost use Rattle.tables.specs.Lent.{seen, topology_with};
ghost use Rattle.tables.specs.declared.Counts.{Counts};
ghost use Rattle.sides.specs.Parts.{Room, SideRead, corners_fit, partner_fits, link_fits, triangle_fits};
ghost use Rattle.rings.specs.Walks.{Zeroed};
ghost use Rattle.sides.specs.Starts.{Kept, AllKept};

use tables::{BOUNDARY, Counts, View};

// Whether side i of a triangle of generation g and side j of one of generation h are a pair of one of the five kinds.
// In 32 bits nothing wraps: the generation of a partner may not be tested yet.
// Kept: the outline asks for this match on parity and side (docs/DECISIONS.md), which runs no step.
fn five_kinds(g: u8, i: usize, h: u8, j: usize) -> bool
    ensures { result ≡ five_kinds (role_of g i) (role_of h j) }
{
    let a = g as u32;
    let b = h as u32;
    match g % 2 {
        0 => match h % 2 {
            0 => a == b,
            _ => match j {
                0 => b == a + 1,
                _ => a == b + 1,
            },
        },
        _ => match i {
            0 => match h % 2 {
                0 => a == b + 1,
                _ => match j {
                    0 => false,
                    _ => a == b + 2,
                },
            },
            _ => match h % 2 {
                0 => b == a + 1,
                _ => match j {
                    0 => b == a + 2,
                    _ => a == b,
                },
            },
        },
    }
}

// The same, with the commonest pair first: two sides of even triangles of one generation.
fn kinds_fit(g: u8, i: usize, h: u8, j: usize) -> bool
    ensures { result ≡ five_kinds (role_of g i) (role_of h j) }
{
    if g == h {
        if g % 2 == 0 {
            return true;
        }
    }
    five_kinds(g, i, h, j)
}

// Whether three corners are vertices in use, no two the same.
#[tactic(auto, unfolding(crate::specs::Parts::corners_fit))]
fn corners_fit(vertices: u32, a: u32, b: u32, c: u32) -> bool
    ensures { result ≡ corners_fit vertices a b c }
{
    if vertices <= a {
        return false;
    }
    if vertices <= b {
        return false;
    }
    if vertices <= c {
        return false;
    }
    if a == b {
        return false;
    }
    if b == c {
        return false;
    }
    c != a
}

// Whether side k links back to side h and starts where h ends, and the two are of a fitting kind. Each side of a pair
// judges the other so: to leave one out would save less than the branch costs.
#[tactic(auto, unfolding(crate::specs::Parts::partner_fits))]
fn partner_fits(view: &View, h: usize, i: usize, g: u8, to: u32, k: usize) -> bool
    requires room { (length view.now.generations.now ≤ 65536) × (3 * length view.now.generations.now ≤ length view.now.corners.now)
        × (3 * length view.now.generations.now ≤ length view.now.links.now) }
    requires in_use { (h < 3 * length view.now.generations.now) × (k < 3 * length view.now.generations.now) }
    ensures { (n : Counts) (from : ℕ) → SideRead view.now.corners.now view.now.generations.now h i g from to
        → result ≡ partner_fits
        (topology_with n (seen view.now)) h k }
{
    if view.links[k] != h as u32 {
        return false;
    }
    if view.corners[k] != to {
        return false;
    }
    kinds_fit(g, i, view.generations[k / 3], k % 3)
}

// The start of a vertex once side h out of it is seen, not on the boundary: the one that it had, else h.
// Kept: fixed memory: with 0 for none a start takes half the room of an Option.
fn first_kept(start: u32, h: u32) -> u32
    requires { h < 4294967295 }
    ensures { (c l : List ℕ) → get_or l h 0 ≢ boundary → Kept c l h (get_or c h 0) start
        → Kept c l (h + 1) (get_or c h 0) result }
{
    if start == 0 { h + 1 } else { start }
}

// Whether side h, in place i of a triangle of generation g and between these vertices, is on the boundary or has a
// fitting partner. The start of the vertex that it goes out of is kept.
#[tactic(auto, unfolding(crate::specs::Parts::link_fits))]
fn side_fits(
    view: &View,
    counts: Counts,
    h: usize,
    i: usize,
    g: u8,
    from: u32,
    to: u32,
    starts: &mut [u32],
) -> bool
    requires room { Room counts.triangles (seen view.now) × (h < 3 * counts.triangles) }
    requires side_read { SideRead view.now.corners.now view.now.generations.now h i g from to × (from < counts.vertices) × (counts.vertices ≤ 32768) }
    requires all_kept { AllKept counts.vertices view.now.corners.now view.now.links.now h starts.old }
    ensures value { result ≡ link_fits
        (topology_with counts (seen view.now))
        h }
    ensures kept_after { result ≡ true
        → AllKept counts.vertices view.now.corners.now view.now.links.now (h + 1) starts.new }
{
    let v = from as usize;
    let across = view.links[h];
    let k = across as usize;
    if 3 * (counts.triangles as usize) <= k {
        if across != BOUNDARY {
            return false;
        }
        // A vertex with two such sides has two fans, so either will do.
        starts[v] = h as u32 + 1;
        return true;
    }
    starts[v] = first_kept(starts[v], h as u32);
    partner_fits(view, h, i, g, to, k)
}

// Whether triangle t is of generation 20 at most, with three vertices in use for corners and links that fit. The starts
// of its corners are kept.
#[tactic(auto, unfolding(crate::specs::Parts::triangle_fits))]
fn triangle_fits(view: &View, counts: Counts, t: usize, starts: &mut [u32]) -> bool
    requires room { Room counts.triangles (seen view.now) × (t < counts.triangles) × (counts.vertices ≤ 32768) }
    requires all_kept { AllKept counts.vertices view.now.corners.now view.now.links.now (3 * t) starts.old }
    ensures value { result ≡ triangle_fits
        (topology_with counts (seen view.now))
        t }
    ensures kept_after { result ≡ true
        → AllKept counts.vertices view.now.corners.now view.now.links.now (3 * t + 3) starts.new }
{
    let g = view.generations[t];
    if 20 < g {
        return false;
    }
    let h = 3 * t;
    let a = view.corners[h];
    let b = view.corners[h + 1];
    let c = view.corners[h + 2];
    if !corners_fit(counts.vertices, a, b, c) {
        return false;
    }
    if !side_fits(view, counts, h, 0, g, a, b, starts) {
        return false;
    }
    if !side_fits(view, counts, h + 1, 1, g, b, c, starts) {
        return false;
    }
    side_fits(view, counts, h + 2, 2, g, c, a, starts)
}

// Whether every triangle fits. The start of each vertex is kept; a zero for each is lent.
pub fn triangles_fit(view: &View, counts: Counts, starts: &mut [u32]) -> bool
    requires room { Room counts.triangles (seen view.now) × (counts.vertices ≤ 32768) }
    requires zeroed { Zeroed counts.vertices starts.old }
    ensures value { result ≡ all counts.triangles (triangle_fits
        (topology_with counts (seen view.now))) }
    ensures all_kept { result ≡ true
        → AllKept counts.vertices view.now.corners.now view.now.links.now (3 * counts.triangles) starts.new }
{
    for t in 0..counts.triangles as usize {
        if !triangle_fits(view, counts, t, starts) {
            return false;
        }
    }
    true
}
