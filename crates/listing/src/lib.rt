// A list of triangles refined one after the other, in spare tables.
#![tactic(auto)]

ghost use Rattle.std.specs.Prelude.{◌≡◌, ◌≤◌, length};
ghost use Rattle.theory.proofs.Lists.InSpares.{entry_outcome};
ghost use Rattle.rules.specs.Calls.{with_report};
ghost use Rattle.rules.specs.Lists.{entry_work, refine_each};
ghost use Rattle.rules.specs.Spares.{Spares};
ghost use Rattle.rules.specs.Split.{at_first};
ghost use Rattle.rules.specs.Tables.{Mesh};
ghost use Rattle.tables.specs.Answers.{worked_outcome};
ghost use Rattle.tables.specs.Lent.{mesh_with, held, seen, SameTables};
ghost use Rattle.reporting.specs.Told.{Told, told_unless};
ghost use Rattle.refining.specs.Batches.{StartsWith, Begins, Holds, Handles, MayWork, list_done, batch_outcome};
ghost use Rattle.refining.specs.Batches.{fitted, report_left, reported_done};
ghost use Rattle.tables.specs.Standing.{standing};

use refining::spares::{Batch, BatchReported, BatchWorked};
use tables::refusals::Refusal;
use tables::{Counts, Tables, View, Worked};

// Handles entry t on a sound mesh, judged by the triangles that were in use at the call's start, and their generations,
// told from place `at` of the report on.
fn handle(
    tables: &mut Tables,
    counts: Counts,
    t: u32,
    triangles: u32,
    start: &[u8],
    report: &mut [u32],
    at: usize,
) -> Worked
    requires { (0 ≡ standing (mesh_with counts (held tables.old))) × (triangles ≤ length start.now) }
    ensures handled { (m : Mesh) → StartsWith triangles start.now m →
        worked_outcome result (held tables.new) ≡ entry_outcome m t (mesh_with counts (held tables.old)) }
    ensures told { (m : Mesh) → StartsWith triangles start.now m →
        Told (told_unless result.refusal (entry_work m t (at_first (mesh_with counts (held tables.old)))).report)
        report.old report.new at }
    ensures lent { SameTables tables.new tables.old }
{
    if triangles <= t {
        return Worked::refused(Refusal::NotInUse, counts);
    }
    if start[t as usize] < tables::generation_at(tables.view().generations, t) {
        return Worked::done(counts);
    }
    refining::refine(tables, counts, t, Ok(()), report, at)
}

// Handles the entries of a list in tables that hold the mesh, whose generations at the call's start are given, and
// tells them where the report has room.
// Kept: the C interface: a refine answers the number of its refusal, 0 for none.
fn handle_all(
    tables: &mut Tables,
    counts: Counts,
    list: &[u32],
    start: &[u8],
    report: &mut [u32],
) -> Batch
    requires { (m : Mesh) × (s : Spares) × Begins m s start.now (mesh_with counts (held tables.old)) }
    ensures handled { (m : Mesh) (s : Spares) →
        Begins m s start.now (mesh_with counts (held tables.old))
        → Handles list.now m s result (mesh_with result.counts (held tables.new))
        × Told (refine_each list.now m).work.report report.old report.new 0 }
    ensures lent { SameTables tables.new tables.old }
{
    let mut splits: u32 = 0;
    let mut flips: u32 = 0;
    let mut reached = counts;
    for (at, t) in list.iter().enumerate() {
        let done = handle(
            tables,
            reached,
            *t,
            counts.triangles,
            start,
            report,
            3 * (splits as usize) + 2 * (flips as usize),
        );
        reached = done.counts;
        if done.refusal != 0 {
            return Batch {
                refusal: done.refusal,
                splits,
                flips,
                handled: at,
                counts: reached,
            };
        }
        splits += done.splits;
        flips += done.flips;
    }
    Batch {
        refusal: 0,
        splits,
        flips,
        handled: list.len(),
        counts: reached,
    }
}

// What a list makes of a mesh, worked out in the spare tables and told where the report has room.
pub fn work_in_spares(
    view: &View,
    counts: Counts,
    list: &[u32],
    report: &mut [u32],
    spares: &mut Tables,
) -> Batch
    requires { MayWork (mesh_with counts (seen view.now)) (held spares.old) }
    ensures worked { let m = mesh_with counts (seen view.now) in
        Handles list.now m (held spares.old) result (mesh_with result.counts (held spares.new))
        × Told (refine_each list.now m).work.report report.old report.new 0 }
    ensures spares_lent { SameTables spares.new spares.old }
{
    view.copy_mesh(counts, spares);
    handle_all(spares, counts, list, view.generations, report)
}

// The same, refused with 23 where the buffer is shorter than the report. How long this is, is known only after the
// work; so the work is done twice, and a refused call leaves the buffer.
// Kept: the C interface: the work has the number that a refine answered.
pub fn work_reported(
    view: &View,
    counts: Counts,
    list: &[u32],
    report: &mut [u32],
    spares: &mut Tables,
) -> Batch
    requires { MayWork (mesh_with counts (seen view.now)) (held spares.old) }
    ensures worked { let m = mesh_with counts (seen view.now) in
        let p = refine_each list.now m in
        Holds (fitted p report.old) (held spares.old) result (mesh_with result.counts (held spares.new))
        × (report.new ≡ report_left p report.old) }
    ensures spares_lent { SameTables spares.new spares.old }
{
    let first = work_in_spares(view, counts, list, &mut [], spares);
    let fitted = refining::spares::fit(first, report.len());
    if fitted.refusal != 0 {
        return fitted;
    }
    work_in_spares(view, counts, list, report, spares)
}

// Refines a list of triangles: all of them, or none of the mesh.
pub fn refine_list(
    tables: &mut Tables,
    counts: Counts,
    list: &[u32],
    spares: &mut Tables,
) -> BatchWorked
    requires { MayWork (mesh_with counts (held tables.old)) (held spares.old) }
    ensures refined { batch_outcome result (held tables.new) (held spares.new)
        ≡ list_done list.now (mesh_with counts (held tables.old)) (held spares.old) }
    ensures lent { SameTables tables.new tables.old }
    ensures spares_lent { SameTables spares.new spares.old }
{
    let made = work_in_spares(&tables.view(), counts, list, &mut [], spares);
    refining::spares::carry_back(tables, counts, made, &spares.view())
}

// The same with a report of the slots that are written.
// Kept: the C interface has the call without a report and this one.
pub fn refine_list_reported(
    tables: &mut Tables,
    counts: Counts,
    list: &[u32],
    report: &mut [u32],
    spares: &mut Tables,
) -> BatchReported
    requires { MayWork (mesh_with counts (held tables.old)) (held spares.old) }
    ensures refined { with_report report.new result.reported (batch_outcome result.worked (held tables.new)
        (held spares.new))
        ≡ reported_done (refine_each list.now (mesh_with counts (held tables.old)))
        report.old (mesh_with counts (held tables.old)) (held spares.old) }
    ensures lent { SameTables tables.new tables.old }
    ensures spares_lent { SameTables spares.new spares.old }
{
    let made = work_reported(&tables.view(), counts, list, report, spares);
    let done = refining::spares::carry_back(tables, counts, made, &spares.view());
    BatchReported {
        worked: done,
        reported: 3 * done.splits + 2 * done.flips,
    }
}
