// The calls that read a mesh: limit positions, a ring, a position.
#![tactic(auto)]

ghost use Rattle.std.specs.Prelude.{◌≡◌, MatchResult};
ghost use Rattle.rules.specs.Calls.{limit_call, ring_call, position_call};
ghost use Rattle.tables.specs.Answers.{table_outcome};
ghost use Rattle.tables.specs.Lent.{seen, mesh_with};
ghost use Rattle.tables.specs.Refusals.{number, refused};
ghost use Rattle.reading.specs.Answers.{limit_outcome, Refused, Found, ring_outcome, position_outcome, point_outcome};
ghost use Rattle.reading.specs.Answers.{point_or_zero};

use points::Point;
use tables::refusals::Refusal;
use tables::{Counts, View};

// The answer of ring.
// Kept: the C interface answers a number, 0 for none.
#[repr(C)]
#[derive(Clone, Copy)]
pub struct RingRead {
    pub refusal: u32,
    pub length: u32,
    pub counts: Counts,
}

// The answer of position.
// Kept: the C interface answers a number, 0 for none.
#[repr(C)]
#[derive(Clone, Copy)]
pub struct PositionRead {
    pub refusal: u32,
    pub point: Point,
    pub counts: Counts,
}

// The answer of limit.
// Kept: the C interface answers a number, 0 for none.
#[repr(C)]
#[derive(Clone, Copy)]
pub struct LimitRead {
    pub refusal: u32,
    pub counts: Counts,
}

// The point in slot v of the positions, or zeros where they have no such slot: for calls above that have found the mesh
// sound.
pub fn point_of(positions: &[i32], v: u32) -> Point
    ensures { result ≡ point_or_zero positions.now v }
{
    if 3 * (v as usize) + 2 < positions.len() {
        tables::point_in(positions, v)
    } else {
        Point { x: 0, y: 0, z: 0 }
    }
}

// Writes the limit position of each vertex into the table, unless that is refused.
fn write_limits(view: &View, counts: Counts, table: &mut [i32]) -> Result<(), Refusal>
    ensures { let m = mesh_with counts (seen view.now) in
        table_outcome (refused result) m table.new ≡ limit_call table.old m }
{
    soundness::first_refusal(view, counts)?;
    limits::limit_positions(view, counts, table)
}

// Writes the limit position of each vertex into the table.
pub fn limit(view: &View, counts: Counts, table: &mut [i32]) -> LimitRead
    ensures { limit_outcome result (seen view.now) table.new
        ≡ limit_call table.old (mesh_with counts (seen view.now)) }
{
    match write_limits(view, counts, table) {
        Ok(()) => LimitRead { refusal: 0, counts },
        Err(refusal) => LimitRead {
            refusal: refusal.number(),
            counts,
        },
    }
}

// What is known of a ring before it is written: the side where it starts and its length.
#[derive(Clone, Copy)]
struct FoundRing {
    first: u32,
    length: u32,
}

// Finds the ring of vertex v for a buffer of so many entries.
fn find_ring(view: &View, counts: Counts, v: u32, room: usize) -> Result<FoundRing, Refusal>
    ensures { let m = mesh_with counts (seen view.now) in
        MatchResult result (λ ring. Found v room m ring) (λ refusal. Refused v room (number refusal) m) }
{
    if !soundness::tables_agree(view) {
        return Err(Refusal::TablesDisagree);
    }
    let Some(first) = soundness::sound_start(view, counts, v) else {
        return Err(Refusal::NotSound);
    };
    if counts.vertices <= v {
        return Err(Refusal::NotInUse);
    }
    let length = rings::ring_length(view.links, counts.triangles, first);
    if room < length as usize {
        return Err(Refusal::BufferShort);
    }
    Ok(FoundRing { first, length })
}

// Reads the ring of vertex v into the front of the buffer.
pub fn ring(view: &View, counts: Counts, v: u32, buffer: &mut [u32]) -> RingRead
    ensures { ring_outcome result (seen view.now) buffer.new
        ≡ ring_call v buffer.old (mesh_with counts (seen view.now)) }
{
    match find_ring(view, counts, v, buffer.len()) {
        Ok(found) => {
            rings::write_ring(
                view.corners,
                view.links,
                counts.triangles,
                found.first,
                buffer,
            );
            RingRead {
                refusal: 0,
                length: found.length,
                counts,
            }
        }
        Err(refusal) => RingRead {
            refusal: refusal.number(),
            length: 0,
            counts,
        },
    }
}

// Finds the position of vertex v.
fn find_position(view: &View, counts: Counts, v: u32) -> Result<Point, Refusal>
    ensures { let m = mesh_with counts (seen view.now) in point_outcome result m ≡ position_call v m }
{
    let stands = soundness::first_refusal(view, counts);
    soundness::slot_refusal(counts.vertices, v, stands)?;
    Ok(tables::point_at(view.positions, v))
}

// Reads the position of vertex v.
pub fn position(view: &View, counts: Counts, v: u32) -> PositionRead
    ensures { position_outcome result (seen view.now)
        ≡ position_call v (mesh_with counts (seen view.now)) }
{
    match find_position(view, counts, v) {
        Ok(point) => PositionRead {
            refusal: 0,
            point,
            counts,
        },
        Err(refusal) => PositionRead {
            refusal: refusal.number(),
            point: Point { x: 0, y: 0, z: 0 },
            counts,
        },
    }
}
