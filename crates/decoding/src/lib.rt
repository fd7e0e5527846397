// The bytes of a cage: their corners decoded, and the tests that need no links.
#![tactic(auto)]

ghost use Rattle.std.specs.Prelude.{◌≡◌, ◌+◌, ◌*◌, ◌<◌, ◌≤◌, length};
ghost use Rattle.rules.specs.Below.{all, fill};
ghost use Rattle.rules.specs.Cage.{sizes_fit, corners_fit};
ghost use Rattle.rules.specs.Numbers.{number_at, signed, in_range};
ghost use Rattle.tables.specs.declared.Counts.{Counts};
ghost use Rattle.tables.specs.Lent.{mesh_with, seen};
ghost use Rattle.decoding.specs.Decoded.{decoded, triangle_fits};

use tables::View;

pub mod writing;

// Whether the cage is as long as its sizes say, and these are at least 1 and within the slots.
// In 64 bits nothing wraps.
pub fn sizes_fit(cage: &[u8], view: &View) -> bool
    ensures { (n : Counts) → result ≡ sizes_fit cage.now (mesh_with n (seen view.now)) }
{
    if cage.len() < 8 {
        return false;
    }
    let v = points::number_at(cage, 0) as usize;
    let f = points::number_at(cage, 4) as usize;
    if v < 1 {
        return false;
    }
    if f < 1 {
        return false;
    }
    if view.positions.len() / 3 < v {
        return false;
    }
    if view.generations.len() < f {
        return false;
    }
    if cage.len() != 8 + 12 * (v + f) {
        return false;
    }
    true
}

// Writes the numbers of the bytes, from place `from` on, into the first entries.
// Kept: no plainer: a loop for this and `writing::place` would take a closure longer than itself.
pub fn decode(cage: &[u8], from: usize, count: usize, corners: &mut [u32])
    requires numbers_in_cage { from + 4 * count ≤ length cage.now }
    requires corner_room { count ≤ length corners.old }
    ensures { corners.new ≡ fill count (λ i. number_at cage.now (from + 4 * i)) corners.old }
{
    for i in 0..count {
        corners[i] = points::number_at(cage, from + 4 * i);
    }
}

// Whether the corners of triangle t are vertices, and none of them is there twice.
// Kept: no heap: the room is arrays of fixed size, of which a cage takes the front.
fn triangle_fits(corners: &[u32], triangles: usize, vertices: u32, t: usize) -> bool
    requires { (triangles ≤ 65536) × (3 * triangles ≤ length corners.now) × (t < triangles) }
    ensures { result ≡ triangle_fits vertices corners.now t }
{
    let a = corners[3 * t];
    let b = corners[3 * t + 1];
    let c = corners[3 * t + 2];
    ((a < vertices) & (a != b)) & ((b < vertices) & (b != c)) & ((c < vertices) & (c != a))
}

// Whether every corner is a vertex, and no triangle repeats one. No early return: the loop then reads several at once.
// Kept: no heap: the room is arrays of fixed size, of which a cage takes the front.
pub fn corners_fit(corners: &[u32], triangles: usize, vertices: u32) -> bool
    requires { (triangles ≤ 65536) × (3 * triangles ≤ length corners.now) }
    ensures { result ≡ corners_fit (decoded vertices triangles corners.now) }
{
    let mut fit = true;
    for t in 0..triangles {
        fit &= triangle_fits(corners, triangles, vertices, t);
    }
    fit
}

// Whether the first coordinates are in range, read in the same way.
// Kept: no plainer: the coordinates are a part of the cage, which the rules read by its bytes.
pub fn coordinates_fit(cage: &[u8], count: usize) -> bool
    requires { 8 + 4 * count ≤ length cage.now }
    ensures { result ≡ all count (λ i. in_range (signed (number_at cage.now (8 + 4 * i)))) }
{
    let mut fit = true;
    for i in 0..count {
        fit &= points::in_range(points::signed_at(cage, 8 + 4 * i));
    }
    fit
}
