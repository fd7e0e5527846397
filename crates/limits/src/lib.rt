// Limit positions on sound tables: what is refused, and the work.
#![tactic(auto)]

ghost use Rattle.std.specs.Prelude.{List, ◌≡◌, ℕ, ◌*◌, ◌≤◌, ℤ, length};
ghost use Rattle.rules.specs.Calls.{limit_refusal, limit_call};
ghost use Rattle.rules.specs.Sound.{Sound};
ghost use Rattle.rules.specs.Step.{limit_positions};
ghost use Rattle.rules.specs.Tables.{Mesh};
ghost use Rattle.tables.specs.Answers.{table_outcome};
ghost use Rattle.tables.specs.Lent.{mesh_now};
ghost use Rattle.tables.specs.Refusals.{refused};
ghost use Rattle.rings.specs.Sums.{Cleared, RingSums};
ghost use Rattle.moving.specs.Moves.{Movable};

use rings::sums::RingSum;
use tables::refusals::Refusal;
use tables::{Counts, View};

// What limit positions are refused with, for a table of so many entries. Where they are not, the rings, of which nothing
// is known at first, have their lengths and the sums of their positions.
fn refusal(
    view: &View,
    counts: Counts,
    entries: usize,
    rings: &mut [RingSum],
) -> Result<(), Refusal>
    requires { ((k : List ℕ) × Sound (mesh_now counts view.now.positions.now view.now.corners.now view.now.links.now
        view.now.generations.now k))
        × Cleared counts.vertices rings.old }
    ensures { (k : List ℕ) →
        let m = mesh_now counts view.now.positions.now view.now.corners.now view.now.links.now
        view.now.generations.now k in
        Sound m → ((table : List ℤ) → length table ≡ entries → refused result ≡ limit_refusal table m)
        × (refused result ≡ 0 → RingSums m rings.new × (entries ≡ 3 * counts.vertices)) }
{
    if !moving::closed_even(view.links, view.generations, counts.triangles) {
        return Err(Refusal::NotUniform);
    }
    if !rings::sums::ring_sums(view.positions, view.corners, counts, rings) {
        return Err(Refusal::RingLong);
    }
    if entries != 3 * (counts.vertices as usize) {
        return Err(Refusal::TableLength);
    }
    Ok(())
}

// The limit of each vertex, by the length and the sum of its ring and by the rule.
// Kept: no plainer: `moving::move_all` writes the positions in place, and this a table beside them.
fn write_all(positions: &[i32], counts: Counts, rings: &[RingSum], table: &mut [i32])
    requires { ((m : Mesh) × Movable counts.vertices counts.rule m positions.now rings.now)
        × (3 * counts.vertices ≤ length table.old) }
    ensures { (m : Mesh) →
        Movable counts.vertices counts.rule m positions.now rings.now
        → table.new ≡ limit_positions m table.old }
{
    for v in 0..counts.vertices {
        let ring = rings[v as usize];
        let n = ring.length as usize;
        let p = tables::point_in(positions, v);
        tables::store_point(table, v, p.limit(counts.rule, n, ring.sum));
    }
}

// Limit positions, with an array lent for the rings, of which nothing is known at first.
fn limits_by(
    view: &View,
    counts: Counts,
    table: &mut [i32],
    rings: &mut [RingSum],
) -> Result<(), Refusal>
    requires { ((k : List ℕ) × Sound (mesh_now counts view.now.positions.now view.now.corners.now view.now.links.now
        view.now.generations.now k))
        × Cleared counts.vertices rings.old }
    ensures { (k : List ℕ) →
        let m = mesh_now counts view.now.positions.now view.now.corners.now view.now.links.now
        view.now.generations.now k in
        Sound m → table_outcome (refused result) m table.new ≡ limit_call table.old m }
{
    refusal(view, counts, table.len(), rings)?;
    write_all(view.positions, counts, rings, table);
    Ok(())
}

// The same for up to N vertices, of which there are no more than 32,768. Each size has a stack frame of its own.
#[inline(never)]
fn limits_within<const N: usize>(
    view: &View,
    counts: Counts,
    table: &mut [i32],
) -> Result<(), Refusal>
    requires sound { (k : List ℕ)
        × Sound (mesh_now counts view.now.positions.now view.now.corners.now view.now.links.now
        view.now.generations.now k) }
    requires slots { (counts.vertices ≤ N) × (N ≤ 32768) }
    ensures { (k : List ℕ) →
        let m = mesh_now counts view.now.positions.now view.now.corners.now view.now.links.now
        view.now.generations.now k in
        Sound m → table_outcome (refused result) m table.new ≡ limit_call table.old m }
{
    let unknown = RingSum::nothing();
    let mut rings = [unknown; N];
    limits_by(view, counts, table, &mut rings)
}

// Limit positions on sound tables, written to the table unless they are refused. A small mesh has little to clear.
// Kept: the room is chosen by the size, and no const argument can be computed from it.
pub fn limit_positions(view: &View, counts: Counts, table: &mut [i32]) -> Result<(), Refusal>
    requires { (k : List ℕ)
        × Sound (mesh_now counts view.now.positions.now view.now.corners.now view.now.links.now
        view.now.generations.now k) }
    ensures { (k : List ℕ) →
        let m = mesh_now counts view.now.positions.now view.now.corners.now view.now.links.now
        view.now.generations.now k in
        Sound m → table_outcome (refused result) m table.new ≡ limit_call table.old m }
{
    if counts.vertices <= 128 {
        return limits_within::<128>(view, counts, table);
    }
    if counts.vertices <= 2048 {
        return limits_within::<2048>(view, counts, table);
    }
    limits_within::<32768>(view, counts, table)
}
