// The calls that read a mesh under the names by which C and Rust link them (include/rawplinth.h).
// Kept: the C interface lends five tables as five slices, and answers a refusal or a stop as a number.
ghost use Rattle.std.specs.Prelude.{◌≡◌, length};
ghost use Rattle.rules.specs.Calls.{limit_call, ring_call, position_call, view_call};
ghost use Rattle.rules.specs.Rim.{curve_call};
ghost use Rattle.tables.specs.Lent.{mesh_now, spares_now};
ghost use Rattle.reading.specs.Answers.{limit_outcome, ring_outcome, position_outcome};
ghost use Rattle.rim.specs.Traced.{curve_outcome};
ghost use Rattle.viewer.specs.View.{table_after, shown_outcome};
ghost use Rattle.rawplinth.specs.Seeing.{point_told};

use reading::{LimitRead, PositionRead, RingRead};
use rim::RimRead;
use tables::{Counts, View};
use viewer::{Seen, Shown, ViewPoint};

// Writes the limit position of each vertex.
#[unsafe(no_mangle)]
pub extern "C" fn rawplinth_limit(
    positions: &[i32],
    corners: &[u32],
    links: &[u32],
    generations: &[u8],
    locks: &[u8],
    counts: Counts,
    table: &mut [i32],
) -> LimitRead
    ensures { limit_outcome result (spares_now positions.now corners.now links.now generations.now locks.now) table.new
        ≡ limit_call table.old (mesh_now counts positions.now corners.now
        links.now generations.now locks.now) }
{
    let view = View {
        positions,
        corners,
        links,
        generations,
        locks,
    };
    reading::limit(&view, counts, table)
}

// Reads the ring of a vertex.
#[unsafe(no_mangle)]
pub extern "C" fn rawplinth_ring(
    positions: &[i32],
    corners: &[u32],
    links: &[u32],
    generations: &[u8],
    locks: &[u8],
    counts: Counts,
    vertex: u32,
    buffer: &mut [u32],
) -> RingRead
    ensures { ring_outcome result (spares_now positions.now corners.now links.now generations.now locks.now) buffer.new
        ≡ ring_call vertex buffer.old (mesh_now counts positions.now corners.now
        links.now generations.now locks.now) }
{
    let view = View {
        positions,
        corners,
        links,
        generations,
        locks,
    };
    reading::ring(&view, counts, vertex, buffer)
}

// Reads the position of a vertex.
#[unsafe(no_mangle)]
pub extern "C" fn rawplinth_position(
    positions: &[i32],
    corners: &[u32],
    links: &[u32],
    generations: &[u8],
    locks: &[u8],
    counts: Counts,
    vertex: u32,
) -> PositionRead
    ensures { position_outcome result (spares_now positions.now corners.now links.now generations.now locks.now)
        ≡ position_call vertex (mesh_now counts positions.now corners.now links.now
        generations.now locks.now) }
{
    let view = View {
        positions,
        corners,
        links,
        generations,
        locks,
    };
    reading::position(&view, counts, vertex)
}

// Writes the curve of a vertex's rim.
#[unsafe(no_mangle)]
pub extern "C" fn rawplinth_rim_curve(
    positions: &[i32],
    corners: &[u32],
    links: &[u32],
    generations: &[u8],
    locks: &[u8],
    counts: Counts,
    vertex: u32,
    table: &mut [i32],
) -> RimRead
    ensures { curve_outcome result (spares_now positions.now corners.now links.now generations.now locks.now) table.new
        ≡ curve_call vertex table.old (mesh_now counts positions.now corners.now
        links.now generations.now locks.now) }
{
    let view = View {
        positions,
        corners,
        links,
        generations,
        locks,
    };
    rim::curve(&view, counts, vertex, table)
}

// What C is told of a seen vertex: on a refusal its number with zeros, and else a point in millimetres.
// Kept: the C interface answers a number, 0 for none.
#[repr(C)]
#[derive(Clone, Copy)]
pub struct PointSeen {
    pub refusal: u32,
    pub point: ViewPoint,
}

// Where a vertex is, in millimetres.
#[unsafe(no_mangle)]
pub extern "C" fn rawplinth_view_point(
    positions: &[i32],
    corners: &[u32],
    links: &[u32],
    generations: &[u8],
    locks: &[u8],
    counts: Counts,
    vertex: u32,
) -> PointSeen
    ensures { result ≡ point_told (position_call vertex (mesh_now counts positions.now corners.now
        links.now generations.now locks.now)) }
{
    let view = View {
        positions,
        corners,
        links,
        generations,
        locks,
    };
    match viewer::point(&view, counts, vertex) {
        Seen::Point(point) => PointSeen { refusal: 0, point },
        Seen::Refused(refusal) => PointSeen {
            refusal,
            point: ViewPoint {
                x: 0.0,
                y: 0.0,
                z: 0.0,
            },
        },
    }
}

// All triangles, nine numbers each, in millimetres.
#[unsafe(no_mangle)]
pub extern "C" fn rawplinth_view_triangles(
    positions: &[i32],
    corners: &[u32],
    links: &[u32],
    generations: &[u8],
    locks: &[u8],
    counts: Counts,
    table: &mut [f32],
) -> Shown
    ensures { let m = mesh_now counts positions.now corners.now links.now
        generations.now locks.now in
        (shown_outcome result (spares_now positions.now corners.now links.now generations.now locks.now) ≡ view_call (length table.old) m)
        × (table.new ≡ table_after m table.old) }
{
    let view = View {
        positions,
        corners,
        links,
        generations,
        locks,
    };
    viewer::triangles(&view, counts, table)
}
