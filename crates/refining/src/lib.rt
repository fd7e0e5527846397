// Refines of one triangle of a mesh whose first refusal is known, and what work in spare tables shares.
#![tactic(auto)]

mod locked;
pub mod spares;

ghost use Rattle.std.specs.Prelude.{◌≡◌, List, [], ◌∷◌, not, ℕ, ◌+◌, ◌-◌, ◌*◌, ◌≤◌, max, leb, ℤ};
ghost use Rattle.rules.specs.Calls.{first_of, ◌if◌, room_for, too_old, alters_locked, worked, refine_call, with_report};
ghost use Rattle.rules.specs.Reports.{one, reported_call};
ghost use Rattle.rules.specs.Sound.{is_sound};
ghost use Rattle.rules.specs.Split.{at_first, refine};
ghost use Rattle.rules.specs.Tables.{tables_agree};
ghost use Rattle.tables.specs.Answers.{worked_outcome};
ghost use Rattle.tables.specs.Lent.{held, seen, topology_with, mesh_with, SameTables};
ghost use Rattle.tables.specs.Refusals.{refused};
ghost use Rattle.tables.specs.declared.Counts.{Counts};
ghost use Rattle.split.specs.Made.{BaseChain};
ghost use Rattle.tables.specs.Standing.{standing};
ghost use Rattle.refining.specs.Locked.{Follows};
ghost use Rattle.reporting.specs.Told.{Told, told_unless};
ghost use Rattle.refining.specs.Finding.{mesh_cornered, Finds, Goes, refused_report};

use split::Chain;
use tables::refusals::Refusal;
use tables::{Counts, Tables, View, Worked};

// The answer of a refine with a report: the length of the report too.
#[repr(C)]
#[derive(Clone, Copy)]
pub struct Reported {
    pub worked: Worked,
    pub reported: u32,
}

impl Reported {
    // The answer of one that is refused.
    pub fn refused(refusal: u32, counts: Counts) -> Self
        ensures { result ≡ refused_report refusal counts }
    {
        Self {
            worked: Worked {
                refusal,
                splits: 0,
                flips: 0,
                counts,
            },
            reported: 0,
        }
    }

    // The answer of such work: three slots for each split, and two for each flip. One that is refused has none.
    // Kept: the counts entry by entry: as a whole they would be copied twice, in two parts, which takes six instructions.
    pub fn carried(worked: Worked) -> Self
        requires { 3 * worked.splits + 2 * worked.flips ≤ 54 }
        ensures { result ≡ record {
          worked = worked;
          reported = 3 * worked.splits + 2 * worked.flips;
        } }
    {
        let Counts {
            vertices,
            triangles,
            rule,
        } = worked.counts;
        Self {
            worked: Worked {
                counts: Counts {
                    vertices,
                    triangles,
                    rule,
                },
                ..worked
            },
            reported: 3 * worked.splits + 2 * worked.flips,
        }
    }
}

// Whether t may rise no more: it is of generation 20, or of 19 with its base on the boundary.
fn too_old(view: &View, t: u32) -> bool
    ensures { (n : Counts) → result ≡ too_old (topology_with n (seen view.now)) t }
{
    let g = tables::generation_at(view.generations, t);
    g == 20 || (g == 19 && tables::base_link(view.links, t) == tables::BOUNDARY)
}

// Refuses a refine by the mesh, which stands or is refused itself, and the triangle.
fn check_triangle(
    view: &View,
    counts: Counts,
    t: u32,
    stands: Result<(), Refusal>,
) -> Result<(), Refusal>
    ensures { (c : List ℕ) →
        let m = mesh_cornered counts c (seen view.now) in
        refused stands ≡ standing m
        → refused result ≡ first_of (1 if not (tables_agree m) ∷ 7 if not (is_sound m)
        ∷ 8 if leb m.topology.triangles t ∷ 9 if too_old m.topology t ∷ []) }
{
    stands?;
    if counts.triangles <= t {
        return Err(Refusal::NotInUse);
    }
    if too_old(view, t) {
        return Err(Refusal::Generation);
    }
    Ok(())
}

// Refuses a refine by the base chain of its triangle.
fn check_chain(view: &View, counts: Counts, chain: Chain) -> Result<(), Refusal>
    requires { Follows chain (seen view.now) }
    ensures { (t : ℕ) (c : List ℕ) →
        let m = mesh_cornered counts c (seen view.now) in
        let s = max 1 (chain.odd - chain.rim) in
        BaseChain m.topology t chain
        → refused result ≡ first_of (19 if alters_locked t m ∷ 11 if not (room_for (s + chain.rim) (2 * s) m) ∷ []) }
{
    if locked::alters_locked(view, chain) {
        return Err(Refusal::Locked);
    }
    if !view.has_room(counts, chain.splits(), chain.rim) {
        return Err(Refusal::NoSlots);
    }
    Ok(())
}

// What a refine of t finds before its work, on a mesh that stands or is refused itself: the base chain of t, or the
// refusal.
pub fn find(
    view: &View,
    counts: Counts,
    t: u32,
    stands: Result<(), Refusal>,
) -> Result<Chain, Refusal>
    requires { (c : List ℕ) × (refused stands ≡ standing (mesh_cornered counts c (seen view.now))) }
    ensures { (c : List ℕ) →
        let m = mesh_cornered counts c (seen view.now) in
        refused stands ≡ standing m → Finds t m result }
{
    check_triangle(view, counts, t, stands)?;
    let chain = split::base_chain(view, t);
    check_chain(view, counts, chain)?;
    Ok(chain)
}

// The refine of t along its base chain, which nothing refuses, told from place `at` of the report on.
// Kept: no plainer: the work does not hold the rule, which a From could not be given.
pub fn carry_out(
    tables: &mut Tables,
    counts: Counts,
    t: u32,
    chain: Chain,
    report: &mut [u32],
    at: usize,
) -> Worked
    requires { Goes t (mesh_with counts (held tables.old)) chain }
    ensures refined { worked_outcome result (held tables.new)
        ≡ worked (refine t (at_first (mesh_with counts (held tables.old)))) }
    ensures told { Told (refine t (at_first (mesh_with counts (held tables.old)))).report report.old report.new at }
    ensures lent { SameTables tables.new tables.old }
{
    let done = reporting::refine(tables, counts, t, chain, report, at);
    Worked {
        refusal: 0,
        splits: done.splits,
        flips: done.flips,
        counts: Counts {
            vertices: done.vertices,
            triangles: done.triangles,
            rule: counts.rule,
        },
    }
}

// Refines triangle t of a mesh that stands or is refused itself, told from place `at` of the report on.
#[inline(always)]
pub fn refine(
    tables: &mut Tables,
    counts: Counts,
    t: u32,
    stands: Result<(), Refusal>,
    report: &mut [u32],
    at: usize,
) -> Worked
    requires { refused stands ≡ standing (mesh_with counts (held tables.old)) }
    ensures refined { worked_outcome result (held tables.new) ≡ refine_call t (mesh_with counts (held tables.old)) }
    ensures told { Told (told_unless result.refusal (refine t (at_first (mesh_with counts (held tables.old)))).report)
        report.old report.new at }
    ensures lent { SameTables tables.new tables.old }
{
    match find(&tables.view(), counts, t, stands) {
        Ok(chain) => carry_out(tables, counts, t, chain, report, at),
        Err(refusal) => Worked::refused(refusal, counts),
    }
}

// Refines triangle t of a mesh that stands or is refused itself, and reports the slots that it writes.
// Kept: the C interface has the call without a report and this one.
pub fn refine_reported(
    tables: &mut Tables,
    counts: Counts,
    t: u32,
    stands: Result<(), Refusal>,
    report: &mut [u32],
) -> Reported
    requires { refused stands ≡ standing (mesh_with counts (held tables.old)) }
    ensures refined { with_report report.new result.reported (worked_outcome result.worked (held tables.new))
        ≡ reported_call (one t) report.old (mesh_with counts (held tables.old)) }
    ensures lent { SameTables tables.new tables.old }
{
    let worked = match find(&tables.view(), counts, t, stands) {
        Ok(chain) => {
            if reporting::fits(&tables.view(), chain, report.len()) {
                carry_out(tables, counts, t, chain, report, 0)
            } else {
                Worked::refused(Refusal::ReportShort, counts)
            }
        }
        Err(refusal) => Worked::refused(refusal, counts),
    };
    Reported::carried(worked)
}
