// Triangles with a corner in a box, refined one after the other in spare tables.
#![tactic(auto)]

ghost use Rattle.std.specs.Prelude.{◌≡◌, ◌*◌, ◌/◌, ◌≤◌, length};
ghost use Rattle.points.specs.Axes.{box_of};
ghost use Rattle.rules.specs.Boxes.{refine_in_box};
ghost use Rattle.rules.specs.Calls.{with_report};
ghost use Rattle.rules.specs.Spares.{Spares};
ghost use Rattle.rules.specs.Tables.{Mesh};
ghost use Rattle.tables.specs.Lent.{mesh_with, held, seen, SameTables};
ghost use Rattle.reporting.specs.Told.{Told};
ghost use Rattle.refining.specs.Batches.{Begins, MayWork, batch_outcome, Holds, fitted, report_left, reported_done};
ghost use Rattle.wanting.specs.Wanting.{Boxes};
ghost use Rattle.boxing.specs.Boxing.{box_done};

use points::Point;
use refining::spares::{Batch, BatchReported, BatchWorked};
use tables::{Counts, Tables, View};

// The box worked in tables that hold the mesh, with marks for 64 vertices in each word of INSIDE and for 64 triangles
// in each of BITS, and for 64 of these in each of WORDS.
fn refine_within<const INSIDE: usize, const BITS: usize, const WORDS: usize>(
    tables: &mut Tables,
    counts: Counts,
    low: Point,
    high: Point,
    below: u32,
    report: &mut [u32],
) -> Batch
    requires begins { (m : Mesh) × (s : Spares) ×
        Begins m s m.topology.generations
        (mesh_with counts (held tables.old)) }
    requires vertices { length tables.old.positions.now / 3 ≤ 64 * INSIDE }
    requires triangles { length tables.old.generations.now ≤ 64 * BITS }
    requires words { (BITS ≤ 64 * WORDS) × (INSIDE ≤ 512) × (WORDS ≤ 16) }
    ensures boxed { (m : Mesh) (s : Spares) →
        Begins m s m.topology.generations (mesh_with counts (held tables.old))
        → Boxes (box_of low high below) m s result (mesh_with result.counts (held tables.new))
        × Told (refine_in_box (box_of low high below) m).work.report report.old report.new 0 }
    ensures lent { SameTables tables.new tables.old }
{
    let mut inside = [0u64; INSIDE];
    let mut bits = [0u64; BITS];
    let mut words = [0u64; WORDS];
    wanting::refine_wanted(
        tables,
        counts,
        low,
        high,
        below,
        &mut inside,
        &mut bits,
        &mut words,
        report,
    )
}

// What the box makes of a mesh, worked out in the spare tables and told where the report has room. Small tables have
// few marks to clear.
fn work_in_spares(
    view: &View,
    counts: Counts,
    low: Point,
    high: Point,
    below: u32,
    report: &mut [u32],
    spares: &mut Tables,
) -> Batch
    requires { MayWork (mesh_with counts (seen view.now)) (held spares.old) }
    ensures boxed { Boxes (box_of low high below) (mesh_with counts (seen view.now)) (held spares.old)
        result (mesh_with result.counts (held spares.new)) }
    ensures told { Told (refine_in_box (box_of low high below) (mesh_with counts (seen view.now))).work.report
        report.old report.new 0 }
    ensures spares_lent { SameTables spares.new spares.old }
{
    view.copy_mesh(counts, spares);
    // Kept: no plainer: the marks are arrays of a constant size, which a test has to choose.
    if spares.generations.len() <= 2048 && spares.positions.len() <= 6144 {
        return refine_within::<32, 32, 1>(spares, counts, low, high, below, report);
    }
    refine_within::<512, 1024, 16>(spares, counts, low, high, below, report)
}

// The same, refused with 23 where the buffer is shorter than the report. How long this is, is known only after the
// work; so the work is done twice, and a refused call leaves the buffer.
fn work_reported(
    view: &View,
    counts: Counts,
    low: Point,
    high: Point,
    below: u32,
    report: &mut [u32],
    spares: &mut Tables,
) -> Batch
    requires { MayWork (mesh_with counts (seen view.now)) (held spares.old) }
    ensures boxed { Holds (fitted (refine_in_box (box_of low high below) (mesh_with counts (seen view.now))) report.old)
        (held spares.old) result (mesh_with result.counts (held spares.new)) }
    ensures reported { report.new
        ≡ report_left (refine_in_box (box_of low high below) (mesh_with counts (seen view.now))) report.old }
    ensures spares_lent { SameTables spares.new spares.old }
{
    let first = work_in_spares(view, counts, low, high, below, &mut [], spares);
    let fitted = refining::spares::fit(first, report.len());
    // Kept: no plainer: what was made stands beside the refusal, so that a Result would hold it twice.
    if fitted.refusal != 0 {
        return fitted;
    }
    work_in_spares(view, counts, low, high, below, report, spares)
}

// Refines the triangles that have a corner in the box until none of them is below the generation: all of it, or nothing
// of the mesh.
pub fn refine_box(
    tables: &mut Tables,
    counts: Counts,
    low: Point,
    high: Point,
    below: u32,
    spares: &mut Tables,
) -> BatchWorked
    requires { MayWork (mesh_with counts (held tables.old)) (held spares.old) }
    ensures boxed { batch_outcome result (held tables.new) (held spares.new)
        ≡ box_done (box_of low high below) (mesh_with counts (held tables.old)) (held spares.old) }
    ensures lent { SameTables tables.new tables.old }
    ensures spares_lent { SameTables spares.new spares.old }
{
    let made = work_in_spares(&tables.view(), counts, low, high, below, &mut [], spares);
    refining::spares::carry_back(tables, counts, made, &spares.view())
}

// The same with a report of the slots that are written.
// Kept: the C interface has the call without a report and this one.
pub fn refine_box_reported(
    tables: &mut Tables,
    counts: Counts,
    low: Point,
    high: Point,
    below: u32,
    report: &mut [u32],
    spares: &mut Tables,
) -> BatchReported
    requires { MayWork (mesh_with counts (held tables.old)) (held spares.old) }
    ensures boxed { with_report report.new result.reported (batch_outcome result.worked (held tables.new)
        (held spares.new))
        ≡ reported_done (refine_in_box (box_of low high below) (mesh_with counts (held tables.old)))
        report.old (mesh_with counts (held tables.old)) (held spares.old) }
    ensures lent { SameTables tables.new tables.old }
    ensures spares_lent { SameTables spares.new spares.old }
{
    let made = work_reported(&tables.view(), counts, low, high, below, report, spares);
    let done = refining::spares::carry_back(tables, counts, made, &spares.view());
    BatchReported {
        worked: done,
        reported: 3 * done.splits + 2 * done.flips,
    }
}
