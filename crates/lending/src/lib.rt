// What a call that works in spare tables is refused with before the work.
#![tactic(auto)]

ghost use Rattle.std.specs.Prelude.{◌≡◌};
ghost use Rattle.tables.specs.Lent.{seen, mesh_with};
ghost use Rattle.tables.specs.Refusals.{refused};
ghost use Rattle.tables.specs.Standing.{standing};
ghost use Rattle.tables.specs.declared.Counts.{Counts};
ghost use Rattle.lending.specs.Working.{work_refusal};

use tables::View;
use tables::refusals::Refusal;

// What refuses a call that works in spare tables: tables that disagree, spare tables of other sizes, arguments that do not
// fit, or a mesh that is not sound. The mesh stands or is refused itself.
// Kept: no plainer: whether the arguments fit is asked after the sizes of the spare tables.
pub fn refusal(
    view: &View,
    stands: Result<(), Refusal>,
    fits: bool,
    spares: &View,
) -> Result<(), Refusal>
    ensures { (n : Counts) →
        let m = mesh_with n (seen view.now) in
        refused stands ≡ standing m → refused result ≡ work_refusal fits (seen spares.now) m }
{
    if let Err(Refusal::TablesDisagree) = stands {
        return stands;
    }
    if !view.same_sizes(spares) {
        return Err(Refusal::SpareSizes);
    }
    if !fits {
        return Err(Refusal::BoxUnfit);
    }
    stands
}
