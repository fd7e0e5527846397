// What a viewer is given: coordinates in millimetres, as f32, of one vertex or of all triangles. The mesh is only read.
#![tactic(auto)]

ghost use Rattle.std.specs.Prelude.{◌≡◌, ◌+◌, ◌*◌, ◌≤◌, ◌<◌, length};
ghost use Rattle.rules.specs.Below.{fill};
ghost use Rattle.rules.specs.Calls.{position_call, view_call, view_refusal};
ghost use Rattle.rules.specs.Numbers.{InRange};
ghost use Rattle.rules.specs.Tables.{put_three};
ghost use Rattle.tables.specs.Lent.{seen, mesh_with};
ghost use Rattle.tables.specs.Refusals.{refused};
ghost use Rattle.viewer.specs.View.{millimetres, in_millimetres, seen_of, entry_of, table_after, shown_outcome};
ghost use Rattle.viewer.specs.View.{PointInRange, Corners};

use points::Point;
use tables::refusals::Refusal;
use tables::{Counts, View};

// A point in millimetres.
// Kept: the C interface names this struct, and that of three i32 beside it.
#[repr(C)]
#[derive(Clone, Copy)]
pub struct ViewPoint {
    pub x: f32,
    pub y: f32,
    pub z: f32,
}

// What is seen of a vertex: its point, or the number of the refusal.
// Kept: the outline asks for this enum, and `Results.point_carried` names it (docs/DECISIONS.md).
#[derive(Clone, Copy)]
pub enum Seen {
    Point(ViewPoint),
    Refused(u32),
}

// The answer for all triangles.
// Kept: the C interface answers a number, 0 for none.
#[repr(C)]
#[derive(Clone, Copy)]
pub struct Shown {
    pub refusal: u32,
    pub counts: Counts,
}

// A coordinate, in units of 1/1024 mm, in millimetres.
fn millimetres(x: i32) -> f32
    requires { InRange x }
    ensures { result ≡ millimetres x }
{
    x as f32 / 1024.0
}

// A point in range in millimetres.
// Kept: no plainer: a From may not ask for the range, in which alone the cast is exact.
fn view_point(p: Point) -> ViewPoint
    requires { PointInRange p }
    ensures { result ≡ in_millimetres (p.x, p.y, p.z) }
{
    ViewPoint {
        x: millimetres(p.x),
        y: millimetres(p.y),
        z: millimetres(p.z),
    }
}

// Where vertex v is.
// Kept: the C interface: the read has the number that C is answered, 0 for none.
pub fn point(view: &View, counts: Counts, v: u32) -> Seen
    ensures { result ≡ seen_of (position_call v (mesh_with counts (seen view.now))) }
{
    let read = reading::position(view, counts, v);
    if read.refusal != 0 {
        return Seen::Refused(read.refusal);
    }
    Seen::Point(view_point(read.point))
}

// A point stored in slot i of a table of three numbers each.
fn store(table: &mut [f32], i: u32, p: ViewPoint)
    requires { 3 * i + 2 < length table.old }
    ensures { table.new ≡ put_three i (p.x, p.y, p.z) table.old }
{
    tables::store_three(table, i, [p.x, p.y, p.z]);
}

// The first corners of a table, three numbers each.
// Kept: C lends whole tables, and the counts say how much of them is in use.
fn write_corners(positions: &[i32], corners: &[u32], count: u32, table: &mut [f32])
    requires { Corners count positions.now corners.now × (3 * count ≤ length table.old) }
    ensures { table.new
        ≡ fill (3 * count) (entry_of positions.now corners.now) table.old }
{
    for h in 0..count {
        let p = reading::point_of(positions, corners[h as usize]);
        store(table, h, view_point(p));
    }
}

// What refuses all triangles into a table of so many numbers.
fn view_refusal(view: &View, counts: Counts, entries: usize) -> Result<(), Refusal>
    ensures { refused result ≡ view_refusal entries (mesh_with counts (seen view.now)) }
{
    soundness::first_refusal(view, counts)?;
    if entries < 9 * (counts.triangles as usize) {
        return Err(Refusal::ViewShort);
    }
    Ok(())
}

// All triangles in the order of their slots, nine numbers each, corner by corner.
pub fn triangles(view: &View, counts: Counts, table: &mut [f32]) -> Shown
    ensures { let m = mesh_with counts (seen view.now) in
        (shown_outcome result (seen view.now) ≡ view_call (length table.old) m)
        × (table.new ≡ table_after m table.old) }
{
    if let Err(refusal) = view_refusal(view, counts, table.len()) {
        return Shown {
            refusal: refusal.number(),
            counts,
        };
    }
    write_corners(view.positions, view.corners, 3 * counts.triangles, table);
    Shown { refusal: 0, counts }
}
