// Work in spare tables: what it made of a mesh, and how this is carried back.
ghost use Rattle.std.specs.Prelude.{◌≡◌, ◌≤◌};
ghost use Rattle.rules.specs.Lists.{Progress, all_or_nothing};
ghost use Rattle.rules.specs.Spares.{Spares};
ghost use Rattle.tables.specs.Lent.{held, seen, mesh_with, SameTables};
ghost use Rattle.refining.specs.Batches.{Made, batch_outcome, refused_batch, fit_in};

use tables::refusals::Refusal;
use tables::{Counts, Tables, View};

// Refines made one after the other: the number that the next one failed with, 0 for none, how many succeeded, and the
// counts of the mesh in the spare tables.
// Kept: no plainer: what was done before a refusal is answered too, and C is answered its number.
#[derive(Clone, Copy)]
pub struct Batch {
    pub refusal: u32,
    pub splits: u32,
    pub flips: u32,
    pub handled: usize,
    pub counts: Counts,
}

// The answer of a call that refines several triangles in spare tables: how many succeeded, which is all of them
// unless one failed, and the counts of the mesh that the spare tables hold, 0 where none was copied.
// Kept: the C interface answers a number, 0 for none.
#[repr(C)]
#[derive(Clone, Copy)]
pub struct BatchWorked {
    pub refusal: u32,
    pub splits: u32,
    pub flips: u32,
    pub counts: Counts,
    pub handled: usize,
    pub spares: Counts,
}

impl BatchWorked {
    // The answer of such a call that is refused before the work.
    pub fn refused(refusal: u32, counts: Counts) -> Self
        ensures { result ≡ refused_batch refusal counts }
    {
        Self {
            refusal,
            splits: 0,
            flips: 0,
            counts,
            handled: 0,
            spares: Counts {
                vertices: 0,
                triangles: 0,
                rule: 0,
            },
        }
    }
}

// The answer of such a call with a report: the length of the report too.
#[repr(C)]
#[derive(Clone, Copy)]
pub struct BatchReported {
    pub worked: BatchWorked,
    pub reported: u32,
}

// Work whose report is to go into so many entries: refused with 23 where these are too few.
// Kept: the C interface: the work has the number that a refine answered.
pub fn fit(work: Batch, entries: usize) -> Batch
    requires { (work.splits ≤ 32768) × (work.flips ≤ 98304) }
    ensures { result ≡ fit_in entries work }
{
    if work.refusal != 0 {
        return work;
    }
    if 3 * (work.splits as usize) + 2 * (work.flips as usize) <= entries {
        return work;
    }
    Batch {
        refusal: Refusal::ReportShort.number(),
        ..work
    }
}

// The end of such a call: the mesh that was made is copied back, unless the work failed half way.
// Kept: the C interface: the work has the number that a refine answered.
pub fn carry_back(tables: &mut Tables, counts: Counts, made: Batch, spares: &View) -> BatchWorked
    requires { (p : Progress) × (s : Spares) ×
        Made p s (mesh_with counts (held tables.old)) made (mesh_with made.counts (seen spares.now)) }
    ensures carried { (p : Progress) (s : Spares) →
        let m = mesh_with counts (held tables.old) in
        Made p s m made (mesh_with made.counts (seen spares.now))
        → batch_outcome result (held tables.new) (seen spares.now) ≡ all_or_nothing p.refusal p s m }
    ensures lent { SameTables tables.new tables.old }
{
    let reached = made.counts;
    if made.refusal != 0 {
        return BatchWorked {
            refusal: made.refusal,
            splits: 0,
            flips: 0,
            counts,
            handled: made.handled,
            spares: reached,
        };
    }
    spares.copy_mesh(reached, tables);
    BatchWorked {
        refusal: 0,
        splits: made.splits,
        flips: made.flips,
        counts: reached,
        handled: made.handled,
        spares: reached,
    }
}
