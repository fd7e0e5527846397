// The public calls that refine a triangle or a list and report the slots that they write. None asks anything of its
// caller, and a refusal leaves the mesh, the note and the report.
#![tactic(auto)]

ghost use Rattle.std.specs.Prelude.{◌≡◌};
ghost use Rattle.rules.specs.Calls.{with_report};
ghost use Rattle.rules.specs.Reports.{one, with_note, each, reported_call};
ghost use Rattle.tables.specs.Answers.{worked_outcome};
ghost use Rattle.tables.specs.Lent.{mesh_with, held, SameTables};
ghost use Rattle.refining.specs.Batches.{batch_outcome};
ghost use Rattle.noting.specs.Noting.{noted_outcome};

use refining::Reported;
use refining::spares::{BatchReported, BatchWorked};
use tables::{Counts, Tables};

// Refines triangle t.
// Kept: the C interface has the call without a report and this one.
pub fn refine(tables: &mut Tables, counts: Counts, t: u32, report: &mut [u32]) -> Reported
    ensures refined { with_report report.new result.reported (worked_outcome result.worked (held tables.new))
        ≡ reported_call (one t) report.old (mesh_with counts (held tables.old)) }
    ensures lent { SameTables tables.new tables.old }
{
    let stands = soundness::first_refusal(&tables.view(), counts);
    refining::refine_reported(tables, counts, t, stands, report)
}

// Refines triangle t, with a note by which it can be taken back.
// Kept: the C interface has the call without a report and this one.
pub fn refine_noted(
    tables: &mut Tables,
    counts: Counts,
    t: u32,
    note: &mut [u32],
    report: &mut [u32],
) -> Reported
    ensures refined { with_report report.new result.reported (noted_outcome result.worked (held tables.new)
        note.new)
        ≡ reported_call (with_note t note.old) report.old (mesh_with counts (held tables.old)) }
    ensures lent { SameTables tables.new tables.old }
{
    let stands = soundness::first_refusal(&tables.view(), counts);
    noting::refine_noted_reported(tables, counts, t, stands, note, report)
}

// Refines the triangles of a list, in its order: all of them, or none of the mesh. The work is done in the spare
// tables.
pub fn refine_list(
    tables: &mut Tables,
    counts: Counts,
    list: &[u32],
    report: &mut [u32],
    spares: &mut Tables,
) -> BatchReported
    ensures refined { with_report report.new result.reported (batch_outcome result.worked (held tables.new)
        (held spares.new))
        ≡ reported_call (each list.now (held spares.old))
        report.old (mesh_with counts (held tables.old)) }
    ensures lent { SameTables tables.new tables.old }
    ensures spares_lent { SameTables spares.new spares.old }
{
    let view = tables.view();
    let stands = soundness::first_refusal(&view, counts);
    if let Err(refusal) = lending::refusal(&view, stands, true, &spares.view()) {
        return BatchReported {
            worked: BatchWorked::refused(refusal.number(), counts),
            reported: 0,
        };
    }
    listing::refine_list_reported(tables, counts, list, report, spares)
}
