// The public calls that refine a box and that foresee a list, and report the slots that they write. None asks anything
// of its caller, and a refusal leaves the mesh and the report.
#![tactic(auto)]

ghost use Rattle.std.specs.Prelude.{◌≡◌};
ghost use Rattle.points.specs.Axes.{box_of};
ghost use Rattle.rules.specs.Calls.{with_report};
ghost use Rattle.rules.specs.Reports.{in_box, reported_call, report_foreseen};
ghost use Rattle.tables.specs.Lent.{mesh_with, held, seen, SameTables};
ghost use Rattle.refining.specs.Batches.{batch_outcome};
ghost use Rattle.foreseeing.specs.Foreseen.{foreseen_outcome};

use foreseeing::{BatchForeseen, ForeseenReported};
use points::Point;
use refining::spares::{BatchReported, BatchWorked};
use tables::{Counts, Tables, View};

// Foresees what refine_list would answer, leave in the spare tables and report. The mesh is only read.
pub fn preview(
    view: &View,
    counts: Counts,
    list: &[u32],
    report: &mut [u32],
    spares: &mut Tables,
) -> ForeseenReported
    ensures foreseen { let m = mesh_with counts (seen view.now) in
        with_report report.new result.reported (foreseen_outcome result.foreseen m (held spares.new))
        ≡ report_foreseen list.now (held spares.old)
        report.old m }
    ensures spares_lent { SameTables spares.new spares.old }
{
    let stands = soundness::first_refusal(view, counts);
    if let Err(refusal) = lending::refusal(view, stands, true, &spares.view()) {
        return ForeseenReported {
            foreseen: BatchForeseen::refused(refusal.number(), counts),
            reported: 0,
        };
    }
    foreseeing::preview_reported(view, counts, list, report, spares)
}

// Refines the triangles that have a corner in the box, the lowest slot first, until none of them is below the
// generation: all of it, or nothing of the mesh. The work is done in the spare tables.
pub fn refine_box(
    tables: &mut Tables,
    counts: Counts,
    low: Point,
    high: Point,
    below: u32,
    report: &mut [u32],
    spares: &mut Tables,
) -> BatchReported
    ensures boxed { with_report report.new result.reported (batch_outcome result.worked (held tables.new)
        (held spares.new))
        ≡ reported_call (in_box (box_of low high below) (held spares.old))
        report.old (mesh_with counts (held tables.old)) }
    ensures lent { SameTables tables.new tables.old }
    ensures spares_lent { SameTables spares.new spares.old }
{
    let view = tables.view();
    let stands = soundness::first_refusal(&view, counts);
    let fits = points::box_fits(low, high, below);
    if let Err(refusal) = lending::refusal(&view, stands, fits, &spares.view()) {
        return BatchReported {
            worked: BatchWorked::refused(refusal.number(), counts),
            reported: 0,
        };
    }
    boxing::refine_box_reported(tables, counts, low, high, below, report, spares)
}
