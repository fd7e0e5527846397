// The calls with a report under the names by which C and Rust link them (include/rawplinth.h).
// Kept: the C interface lends five tables as five slices, and answers a refusal or a stop as a number.
ghost use Rattle.std.specs.Prelude.{◌≡◌};
ghost use Rattle.points.specs.Axes.{box_of};
ghost use Rattle.rules.specs.Calls.{with_report};
ghost use Rattle.rules.specs.Reports.{one, with_note, each, in_box, reported_call, report_foreseen};
ghost use Rattle.tables.specs.Answers.{worked_outcome};
ghost use Rattle.tables.specs.Lent.{mesh_now, spares_now};
ghost use Rattle.refining.specs.Batches.{batch_outcome};
ghost use Rattle.foreseeing.specs.Foreseen.{foreseen_outcome};
ghost use Rattle.noting.specs.Noting.{noted_outcome};

use foreseeing::ForeseenReported;
use points::Point;
use refining::Reported;
use refining::spares::BatchReported;
use tables::{Counts, Tables, View};

// Refines one triangle, and reports the slots that it writes.
#[unsafe(no_mangle)]
pub extern "C" fn rawplinth_refine_reported(
    positions: &mut [i32],
    corners: &mut [u32],
    links: &mut [u32],
    generations: &mut [u8],
    locks: &mut [u8],
    counts: Counts,
    triangle: u32,
    report: &mut [u32],
) -> Reported
    ensures { with_report report.new result.reported (worked_outcome result.worked (spares_now positions.new corners.new links.new generations.new locks.new))
        ≡ reported_call (one triangle) report.old (mesh_now counts positions.old corners.old
        links.old generations.old locks.old) }
{
    let mut tables = Tables {
        positions,
        corners,
        links,
        generations,
        locks,
    };
    reports::refine(&mut tables, counts, triangle, report)
}

// The same with a note by which it can be taken back.
#[unsafe(no_mangle)]
pub extern "C" fn rawplinth_refine_noted_reported(
    positions: &mut [i32],
    corners: &mut [u32],
    links: &mut [u32],
    generations: &mut [u8],
    locks: &mut [u8],
    counts: Counts,
    triangle: u32,
    note: &mut [u32],
    report: &mut [u32],
) -> Reported
    ensures { with_report report.new result.reported (noted_outcome result.worked (spares_now positions.new corners.new links.new generations.new locks.new)
        note.new)
        ≡ reported_call (with_note triangle note.old) report.old (mesh_now counts positions.old corners.old
        links.old generations.old locks.old) }
{
    let mut tables = Tables {
        positions,
        corners,
        links,
        generations,
        locks,
    };
    reports::refine_noted(&mut tables, counts, triangle, note, report)
}

// Refines a list of triangles, all or none, in spare tables, and reports the slots that are written.
#[unsafe(no_mangle)]
pub extern "C" fn rawplinth_refine_list_reported(
    positions: &mut [i32],
    corners: &mut [u32],
    links: &mut [u32],
    generations: &mut [u8],
    locks: &mut [u8],
    counts: Counts,
    list: &[u32],
    report: &mut [u32],
    spare_positions: &mut [i32],
    spare_corners: &mut [u32],
    spare_links: &mut [u32],
    spare_generations: &mut [u8],
    spare_locks: &mut [u8],
) -> BatchReported
    ensures { with_report report.new result.reported (batch_outcome result.worked (spares_now positions.new corners.new links.new generations.new locks.new)
        (spares_now spare_positions.new spare_corners.new spare_links.new
        spare_generations.new spare_locks.new))
        ≡ reported_call (each list.now (spares_now spare_positions.old spare_corners.old spare_links.old
        spare_generations.old spare_locks.old))
        report.old (mesh_now counts positions.old corners.old
        links.old generations.old locks.old) }
{
    let mut tables = Tables {
        positions,
        corners,
        links,
        generations,
        locks,
    };
    let mut spares = Tables {
        positions: spare_positions,
        corners: spare_corners,
        links: spare_links,
        generations: spare_generations,
        locks: spare_locks,
    };
    reports::refine_list(&mut tables, counts, list, report, &mut spares)
}

// Refines what has a corner in a box, all or nothing, in spare tables, and reports the slots that are written.
#[unsafe(no_mangle)]
pub extern "C" fn rawplinth_refine_box_reported(
    positions: &mut [i32],
    corners: &mut [u32],
    links: &mut [u32],
    generations: &mut [u8],
    locks: &mut [u8],
    counts: Counts,
    low: Point,
    high: Point,
    below: u32,
    report: &mut [u32],
    spare_positions: &mut [i32],
    spare_corners: &mut [u32],
    spare_links: &mut [u32],
    spare_generations: &mut [u8],
    spare_locks: &mut [u8],
) -> BatchReported
    ensures { with_report report.new result.reported (batch_outcome result.worked (spares_now positions.new corners.new links.new generations.new locks.new)
        (spares_now spare_positions.new spare_corners.new spare_links.new
        spare_generations.new spare_locks.new))
        ≡ reported_call (in_box (box_of low high below) (spares_now spare_positions.old spare_corners.old spare_links.old
        spare_generations.old spare_locks.old))
        report.old (mesh_now counts positions.old corners.old
        links.old generations.old locks.old) }
{
    let mut tables = Tables {
        positions,
        corners,
        links,
        generations,
        locks,
    };
    let mut spares = Tables {
        positions: spare_positions,
        corners: spare_corners,
        links: spare_links,
        generations: spare_generations,
        locks: spare_locks,
    };
    batch_reports::refine_box(&mut tables, counts, low, high, below, report, &mut spares)
}

// Foresees a list of triangles in spare tables, and reports the slots that it would write; the mesh is only read.
#[unsafe(no_mangle)]
pub extern "C" fn rawplinth_preview_reported(
    positions: &[i32],
    corners: &[u32],
    links: &[u32],
    generations: &[u8],
    locks: &[u8],
    counts: Counts,
    list: &[u32],
    report: &mut [u32],
    spare_positions: &mut [i32],
    spare_corners: &mut [u32],
    spare_links: &mut [u32],
    spare_generations: &mut [u8],
    spare_locks: &mut [u8],
) -> ForeseenReported
    ensures { let m = mesh_now counts positions.now corners.now links.now
        generations.now locks.now in
        with_report report.new result.reported (foreseen_outcome result.foreseen m
        (spares_now spare_positions.new spare_corners.new spare_links.new
        spare_generations.new spare_locks.new))
        ≡ report_foreseen list.now (spares_now spare_positions.old spare_corners.old spare_links.old
        spare_generations.old spare_locks.old)
        report.old m }
{
    let view = View {
        positions,
        corners,
        links,
        generations,
        locks,
    };
    let mut spares = Tables {
        positions: spare_positions,
        corners: spare_corners,
        links: spare_links,
        generations: spare_generations,
        locks: spare_locks,
    };
    batch_reports::preview(&view, counts, list, report, &mut spares)
}
