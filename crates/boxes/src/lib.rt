// The public call that refines what has a corner in a box, without a report. It asks nothing of its caller, but the one
// named `known` is to be told whether the mesh stands or what refuses it. A refusal leaves the mesh.
#![tactic(auto)]

ghost use Rattle.std.specs.Prelude.{◌≡◌};
ghost use Rattle.refining.specs.Batches.{batch_outcome};
ghost use Rattle.tables.specs.Standing.{standing};
ghost use Rattle.points.specs.Axes.{box_of};
ghost use Rattle.rules.specs.Boxes.{box_call};
ghost use Rattle.tables.specs.Lent.{mesh_with, held, SameTables};
ghost use Rattle.tables.specs.Refusals.{refused};

use points::Point;
use refining::spares::BatchWorked;
use tables::refusals::Refusal;
use tables::{Counts, Tables};

// The same as refine_box, on a mesh that stands or is refused itself.
pub fn refine_box_known(
    tables: &mut Tables,
    counts: Counts,
    low: Point,
    high: Point,
    below: u32,
    spares: &mut Tables,
    stands: Result<(), Refusal>,
) -> BatchWorked
    requires { refused stands ≡ standing (mesh_with counts (held tables.old)) }
    ensures boxed { batch_outcome result (held tables.new) (held spares.new)
        ≡ box_call (box_of low high below) (held spares.old)
        (mesh_with counts (held tables.old)) }
    ensures lent { SameTables tables.new tables.old }
    ensures spares_lent { SameTables spares.new spares.old }
{
    let fits = points::box_fits(low, high, below);
    if let Err(refusal) = lending::refusal(&tables.view(), stands, fits, &spares.view()) {
        return BatchWorked::refused(refusal.number(), counts);
    }
    boxing::refine_box(tables, counts, low, high, below, spares)
}

// Refines the triangles that have a corner in the box, the lowest slot first, until none of them is below the
// generation: all of it, or nothing of the mesh. The work is done in the spare tables.
pub fn refine_box(
    tables: &mut Tables,
    counts: Counts,
    low: Point,
    high: Point,
    below: u32,
    spares: &mut Tables,
) -> BatchWorked
    ensures boxed { batch_outcome result (held tables.new) (held spares.new)
        ≡ box_call (box_of low high below) (held spares.old)
        (mesh_with counts (held tables.old)) }
    ensures lent { SameTables tables.new tables.old }
    ensures spares_lent { SameTables spares.new spares.old }
{
    let stands = soundness::first_refusal(&tables.view(), counts);
    refine_box_known(tables, counts, low, high, below, spares, stands)
}
