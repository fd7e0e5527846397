// The rim from one of its vertices on, and its curve: three points for each vertex.
#![tactic(auto)]

ghost use Rattle.std.specs.Prelude.{List, ◌≡◌, ℕ, ◌+◌, ◌*◌, ◌≤◌, ◌<◌, MatchResult, length, get_or};
ghost use Rattle.rules.specs.Below.{fill};
ghost use Rattle.rules.specs.Rim.{rim, curve_at, curve_call};
ghost use Rattle.rules.specs.Ring.{first_side};
ghost use Rattle.rules.specs.Tables.{next, origin, target, topology_of};
ghost use Rattle.tables.specs.Lent.{seen, mesh_with};
ghost use Rattle.tables.specs.Refusals.{number};
ghost use Rattle.tables.specs.declared.Counts.{Counts};
ghost use Rattle.rim.specs.Traced.{OnRimSide, Closes, Traced, three_points, Refused, Found, curve_outcome};

use points::Point;
use tables::refusals::Refusal;
use tables::sides::next;
use tables::{BOUNDARY, Counts, View};

// The answer of curve: how many vertices the rim has.
// Kept: the C interface answers a number, 0 for none, and names this struct beside that of a ring.
#[repr(C)]
#[derive(Clone, Copy)]
pub struct RimRead {
    pub refusal: u32,
    pub length: u32,
    pub counts: Counts,
}

// A rim from one of its sides on: how many vertices it has, and its side back to the first.
#[derive(Clone, Copy)]
struct Trace {
    length: u32,
    last: usize,
}

// What is known of a rim before its curve is written: its first side and where it closes.
#[derive(Clone, Copy)]
struct FoundRim {
    first: usize,
    trace: Trace,
}

// What is across the side after k. A read in each arm compiles to a shorter turn than one read at `next(k)`.
fn across_next(links: &[u32], k: usize) -> u32
    requires { (next k < length links.now) × (k < 4294967295) }
    ensures { result ≡ get_or links.now (next k) 0 }
{
    let after = k + 1;
    if after % 3 == 0 {
        return links[after - 3];
    }
    links[after]
}

// The side where the rim goes on after its side h: out of the target of h, about which it turns back to the boundary.
fn onward(links: &[u32], h: usize) -> usize
    requires { (v f : ℕ) × (c g : List ℕ) × OnRimSide (topology_of v f c links.now g) h }
    ensures { (v f : ℕ) (c g : List ℕ) →
        let m = topology_of v f c links.now g in
        OnRimSide m h → result ≡ first_side m (target m h) }
{
    let mut k = h;
    // Kept: no plainer: the walk follows the links to the boundary and counts nothing.
    let last = loop {
        let across = across_next(links, k);
        if across == BOUNDARY {
            break k;
        }
        k = across as usize;
    };
    next(last)
}

// The rim from its side `first` on.
fn trace_rim(links: &[u32], first: usize) -> Trace
    requires { (v f : ℕ) × (c g : List ℕ) × OnRimSide (topology_of v f c links.now g) first }
    ensures { (v f : ℕ) (c g : List ℕ) →
        let m = topology_of v f c links.now g in
        OnRimSide m first → Closes m first result }
{
    let mut n: u32 = 1;
    let mut h = first;
    // Kept: no plainer: the walk has no end that is known before it comes back.
    loop {
        let k = onward(links, h);
        if k == first {
            return Trace { length: n, last: h };
        }
        n += 1;
        h = k;
    }
}

// Stores the three points of a vertex at b, where the one before is at a and the one after at c, from slot i of the
// table on.
fn store_three(table: &mut [i32], i: u32, a: Point, b: Point, c: Point)
    requires { (3 * i + 9 ≤ length table.old) × (i < 4294967294) }
    ensures { table.new ≡ three_points i a b c table.old }
{
    tables::store_point(table, i, Point::smoothed(10, 16, 1, a, b, c));
    tables::store_point(table, i + 1, Point::smoothed(4, 19, 4, a, b, c));
    tables::store_point(table, i + 2, Point::smoothed(1, 16, 10, a, b, c));
}

// Writes the curve of the rim from its side `first` on to the front of the table.
fn write_curve(view: &View, first: usize, trace: Trace, table: &mut [i32])
    requires { (9 * trace.length ≤ length table.old)
        × ((n : Counts) × Traced (mesh_with n (seen view.now)) first trace) }
    ensures { (n : Counts) →
        let m = mesh_with n (seen view.now) in
        Traced m first trace → table.new
        ≡ fill (9 * trace.length) (curve_at m (rim m.topology (origin m.topology first))) table.old }
{
    let View {
        positions,
        corners,
        links,
        ..
    } = *view;
    let last = trace.last;
    let mut before = tables::point_in(positions, corners[last]);
    let mut this = tables::point_in(positions, corners[first]);
    let mut h = first;
    for j in 0..trace.length {
        h = onward(links, h);
        let after = tables::point_in(positions, corners[h]);
        store_three(table, 3 * j, before, this, after);
        before = this;
        this = after;
    }
}

// Finds the rim of vertex v for a table of so many entries.
fn find_rim(view: &View, counts: Counts, v: u32, room: usize) -> Result<FoundRim, Refusal>
    ensures { let m = mesh_with counts (seen view.now) in
        MatchResult result (λ rim. Found v room m rim) (λ refusal. Refused v room (number refusal) m) }
{
    if !soundness::tables_agree(view) {
        return Err(Refusal::TablesDisagree);
    }
    let Some(start) = soundness::sound_start(view, counts, v) else {
        return Err(Refusal::NotSound);
    };
    if counts.vertices <= v {
        return Err(Refusal::NotInUse);
    }
    let first = start as usize;
    if view.links[first] != BOUNDARY {
        return Err(Refusal::NotOnRim);
    }
    let trace = trace_rim(view.links, first);
    if room < 9 * (trace.length as usize) {
        return Err(Refusal::CurveShort);
    }
    Ok(FoundRim { first, trace })
}

// Writes the curve of the rim of vertex v, from v on, to the front of the table.
pub fn curve(view: &View, counts: Counts, v: u32, table: &mut [i32]) -> RimRead
    ensures { curve_outcome result (seen view.now) table.new
        ≡ curve_call v table.old (mesh_with counts (seen view.now)) }
{
    match find_rim(view, counts, v, table.len()) {
        Ok(rim) => {
            write_curve(view, rim.first, rim.trace, table);
            RimRead {
                refusal: 0,
                length: rim.trace.length,
                counts,
            }
        }
        Err(refusal) => RimRead {
            refusal: refusal.number(),
            length: 0,
            counts,
        },
    }
}
