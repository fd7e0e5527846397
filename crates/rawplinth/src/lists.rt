// The calls that work in spare tables, without a report, under the names by which C and Rust link them
// (include/rawplinth.h).
// Kept: the C interface lends five tables as five slices, and answers a refusal or a stop as a number.
ghost use Rattle.std.specs.Prelude.{◌≡◌};
ghost use Rattle.points.specs.Axes.{box_of};
ghost use Rattle.rules.specs.Boxes.{box_call};
ghost use Rattle.rules.specs.Lists.{list_call, preview_call};
ghost use Rattle.tables.specs.Lent.{mesh_now, spares_now};
ghost use Rattle.refining.specs.Batches.{batch_outcome};
ghost use Rattle.foreseeing.specs.Foreseen.{foreseen_outcome};

use foreseeing::BatchForeseen;
use points::Point;
use refining::spares::BatchWorked;
use tables::{Counts, Tables, View};

// Refines a list of triangles, all or none, in spare tables.
#[unsafe(no_mangle)]
pub extern "C" fn rawplinth_refine_list(
    positions: &mut [i32],
    corners: &mut [u32],
    links: &mut [u32],
    generations: &mut [u8],
    locks: &mut [u8],
    counts: Counts,
    list: &[u32],
    spare_positions: &mut [i32],
    spare_corners: &mut [u32],
    spare_links: &mut [u32],
    spare_generations: &mut [u8],
    spare_locks: &mut [u8],
) -> BatchWorked
    ensures { batch_outcome result (spares_now positions.new corners.new links.new generations.new locks.new)
        (spares_now spare_positions.new spare_corners.new spare_links.new
        spare_generations.new spare_locks.new)
        ≡ list_call list.now (spares_now spare_positions.old spare_corners.old
        spare_links.old spare_generations.old spare_locks.old)
        (mesh_now counts positions.old corners.old links.old
        generations.old locks.old) }
{
    let mut tables = Tables {
        positions,
        corners,
        links,
        generations,
        locks,
    };
    let mut spares = Tables {
        positions: spare_positions,
        corners: spare_corners,
        links: spare_links,
        generations: spare_generations,
        locks: spare_locks,
    };
    batches::refine_list(&mut tables, counts, list, &mut spares)
}

// Refines what has a corner in a box, all or nothing, in spare tables.
#[unsafe(no_mangle)]
pub extern "C" fn rawplinth_refine_box(
    positions: &mut [i32],
    corners: &mut [u32],
    links: &mut [u32],
    generations: &mut [u8],
    locks: &mut [u8],
    counts: Counts,
    low: Point,
    high: Point,
    below: u32,
    spare_positions: &mut [i32],
    spare_corners: &mut [u32],
    spare_links: &mut [u32],
    spare_generations: &mut [u8],
    spare_locks: &mut [u8],
) -> BatchWorked
    ensures { batch_outcome result (spares_now positions.new corners.new links.new generations.new locks.new)
        (spares_now spare_positions.new spare_corners.new spare_links.new
        spare_generations.new spare_locks.new)
        ≡ box_call (box_of low high below) (spares_now spare_positions.old spare_corners.old
        spare_links.old spare_generations.old spare_locks.old)
        (mesh_now counts positions.old corners.old links.old
        generations.old locks.old) }
{
    let mut tables = Tables {
        positions,
        corners,
        links,
        generations,
        locks,
    };
    let mut spares = Tables {
        positions: spare_positions,
        corners: spare_corners,
        links: spare_links,
        generations: spare_generations,
        locks: spare_locks,
    };
    boxes::refine_box(&mut tables, counts, low, high, below, &mut spares)
}

// Foresees a list of triangles in spare tables; the mesh is only read.
#[unsafe(no_mangle)]
pub extern "C" fn rawplinth_preview(
    positions: &[i32],
    corners: &[u32],
    links: &[u32],
    generations: &[u8],
    locks: &[u8],
    counts: Counts,
    list: &[u32],
    spare_positions: &mut [i32],
    spare_corners: &mut [u32],
    spare_links: &mut [u32],
    spare_generations: &mut [u8],
    spare_locks: &mut [u8],
) -> BatchForeseen
    ensures { let m = mesh_now counts positions.now corners.now links.now
        generations.now locks.now in
        foreseen_outcome result m (spares_now spare_positions.new spare_corners.new
        spare_links.new spare_generations.new spare_locks.new)
        ≡ preview_call list.now (spares_now spare_positions.old spare_corners.old
        spare_links.old spare_generations.old spare_locks.old) m }
{
    let view = View {
        positions,
        corners,
        links,
        generations,
        locks,
    };
    let mut spares = Tables {
        positions: spare_positions,
        corners: spare_corners,
        links: spare_links,
        generations: spare_generations,
        locks: spare_locks,
    };
    batches::preview(&view, counts, list, &mut spares)
}
