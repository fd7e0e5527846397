// The public calls that refine a list of triangles and that foresee it, without reports. None asks anything of its
// caller, but the one named `known` is to be told whether the mesh stands or what refuses it. A refusal leaves the
// mesh.
#![tactic(auto)]

ghost use Rattle.std.specs.Prelude.{◌≡◌};
ghost use Rattle.rules.specs.Lists.{list_call, preview_call};
ghost use Rattle.tables.specs.Lent.{mesh_with, held, seen, SameTables};
ghost use Rattle.refining.specs.Batches.{batch_outcome};
ghost use Rattle.foreseeing.specs.Foreseen.{foreseen_outcome};
ghost use Rattle.tables.specs.Refusals.{refused};
ghost use Rattle.tables.specs.Standing.{standing};

use foreseeing::BatchForeseen;
use refining::spares::BatchWorked;
use tables::refusals::Refusal;
use tables::{Counts, Tables, View};

// The same as refine_list, on a mesh that stands or is refused itself.
pub fn refine_list_known(
    tables: &mut Tables,
    counts: Counts,
    list: &[u32],
    spares: &mut Tables,
    stands: Result<(), Refusal>,
) -> BatchWorked
    requires { refused stands ≡ standing (mesh_with counts (held tables.old)) }
    ensures refined { batch_outcome result (held tables.new) (held spares.new)
        ≡ list_call list.now (held spares.old)
        (mesh_with counts (held tables.old)) }
    ensures lent { SameTables tables.new tables.old }
    ensures spares_lent { SameTables spares.new spares.old }
{
    if let Err(refusal) = lending::refusal(&tables.view(), stands, true, &spares.view()) {
        return BatchWorked::refused(refusal.number(), counts);
    }
    listing::refine_list(tables, counts, list, spares)
}

// Refines the triangles of a list, in its order: all of them, or none of the mesh. The work is done in the spare
// tables.
pub fn refine_list(
    tables: &mut Tables,
    counts: Counts,
    list: &[u32],
    spares: &mut Tables,
) -> BatchWorked
    ensures refined { batch_outcome result (held tables.new) (held spares.new)
        ≡ list_call list.now (held spares.old)
        (mesh_with counts (held tables.old)) }
    ensures lent { SameTables tables.new tables.old }
    ensures spares_lent { SameTables spares.new spares.old }
{
    let stands = soundness::first_refusal(&tables.view(), counts);
    refine_list_known(tables, counts, list, spares, stands)
}

// Foresees what refine_list would answer and leave in the spare tables. The mesh is only read.
pub fn preview(view: &View, counts: Counts, list: &[u32], spares: &mut Tables) -> BatchForeseen
    ensures foreseen { let m = mesh_with counts (seen view.now) in
        foreseen_outcome result m (held spares.new)
        ≡ preview_call list.now (held spares.old) m }
    ensures spares_lent { SameTables spares.new spares.old }
{
    let stands = soundness::first_refusal(view, counts);
    if let Err(refusal) = lending::refusal(view, stands, true, &spares.view()) {
        return BatchForeseen::refused(refusal.number(), counts);
    }
    foreseeing::preview(view, counts, list, spares)
}
