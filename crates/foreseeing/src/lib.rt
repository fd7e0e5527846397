// What a list would make of a mesh, foreseen: the list is worked out in spare tables, and the mesh only read.
#![tactic(auto)]

ghost use Rattle.std.specs.Prelude.{◌≡◌};
ghost use Rattle.rules.specs.Calls.{with_report};
ghost use Rattle.rules.specs.Lists.{refine_each};
ghost use Rattle.tables.specs.Lent.{mesh_with, held, seen, SameTables};
ghost use Rattle.refining.specs.Batches.{MayWork, list_done, only_read, reported_done};
ghost use Rattle.foreseeing.specs.Foreseen.{refused_foreseen, foreseen_of, foreseen_outcome};

use refining::spares::Batch;
use tables::{Counts, Tables, View};

// The answer of a preview: V and F are those that the list would answer, and no counts of the mesh, which stands. On a
// refusal they are the mesh's own.
// Kept: the C interface answers a number, 0 for none.
#[repr(C)]
#[derive(Clone, Copy)]
pub struct BatchForeseen {
    pub refusal: u32,
    pub splits: u32,
    pub flips: u32,
    pub foreseen_vertices: u32,
    pub foreseen_triangles: u32,
    pub handled: usize,
    pub spares: Counts,
}

impl BatchForeseen {
    // The answer of a preview that is refused before the work.
    pub fn refused(refusal: u32, counts: Counts) -> Self
        ensures { result ≡ refused_foreseen refusal counts }
    {
        Self {
            refusal,
            splits: 0,
            flips: 0,
            foreseen_vertices: counts.vertices,
            foreseen_triangles: counts.triangles,
            handled: 0,
            spares: Counts {
                vertices: 0,
                triangles: 0,
                rule: 0,
            },
        }
    }
}

// What is foreseen where this work was made of a mesh with these counts.
// Kept: the C interface: the work has the number that a refine answered.
fn foresee(counts: Counts, made: Batch) -> BatchForeseen
    ensures { result ≡ foreseen_of counts made }
{
    let reached = made.counts;
    if made.refusal != 0 {
        return BatchForeseen {
            refusal: made.refusal,
            splits: 0,
            flips: 0,
            foreseen_vertices: counts.vertices,
            foreseen_triangles: counts.triangles,
            handled: made.handled,
            spares: reached,
        };
    }
    BatchForeseen {
        refusal: 0,
        splits: made.splits,
        flips: made.flips,
        foreseen_vertices: reached.vertices,
        foreseen_triangles: reached.triangles,
        handled: made.handled,
        spares: reached,
    }
}

// Foresees a list of triangles: what refine_list answers and leaves in the spare tables, with the mesh only read.
pub fn preview(view: &View, counts: Counts, list: &[u32], spares: &mut Tables) -> BatchForeseen
    requires { MayWork (mesh_with counts (seen view.now)) (held spares.old) }
    ensures foreseen { let m = mesh_with counts (seen view.now) in
        foreseen_outcome result m (held spares.new) ≡ only_read m (list_done list.now m (held spares.old)) }
    ensures spares_lent { SameTables spares.new spares.old }
{
    let made = listing::work_in_spares(view, counts, list, &mut [], spares);
    foresee(counts, made)
}

// The answer of a preview with a report: what is foreseen, and the length of the report.
#[repr(C)]
#[derive(Clone, Copy)]
pub struct ForeseenReported {
    pub foreseen: BatchForeseen,
    pub reported: u32,
}

// Foresees a list as preview does, and reports the slots that it would write.
// Kept: the C interface has the call without a report and this one.
pub fn preview_reported(
    view: &View,
    counts: Counts,
    list: &[u32],
    report: &mut [u32],
    spares: &mut Tables,
) -> ForeseenReported
    requires { MayWork (mesh_with counts (seen view.now)) (held spares.old) }
    ensures foreseen { let m = mesh_with counts (seen view.now) in
        with_report report.new result.reported (foreseen_outcome result.foreseen m (held spares.new))
        ≡ only_read m (reported_done (refine_each list.now m) report.old m (held spares.old)) }
    ensures spares_lent { SameTables spares.new spares.old }
{
    let made = listing::work_reported(view, counts, list, report, spares);
    let foreseen = foresee(counts, made);
    ForeseenReported {
        foreseen,
        reported: 3 * foreseen.splits + 2 * foreseen.flips,
    }
}
