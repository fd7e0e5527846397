// The test of soundness, equal to that of the rules on every content of the tables, in linear time, and the refusals
// that calls begin with.
#![tactic(auto)]

ghost use Rattle.std.specs.Prelude.{◌≡◌, List, ℕ, ◌≤◌, leb, pos, length, get_or};
ghost use Rattle.rules.specs.Below.{all};
ghost use Rattle.rules.specs.Numbers.{in_range};
ghost use Rattle.rules.specs.Sound.{is_sound};
ghost use Rattle.rules.specs.Tables.{Mesh, tables_agree};
ghost use Rattle.tables.specs.Lent.{seen, mesh_with};
ghost use Rattle.tables.specs.Refusals.{refused};
ghost use Rattle.tables.specs.declared.Counts.{Counts};
ghost use Rattle.tables.specs.Standing.{standing, slot_refusal};
ghost use Rattle.soundness.specs.Parts.{counts_fit, start_if};

use tables::refusals::Refusal;
use tables::{Counts, View};

mod surface;

// Whether the tables agree in their slots and keep to the maxima. The counts do not matter.
#[tactic(auto, unfolding(rules::specs::Tables::tables_agree))]
pub fn tables_agree(view: &View) -> bool
    ensures { (n : Counts) → result ≡ tables_agree (mesh_with n (seen view.now)) }
{
    let vertex_slots = view.positions.len() / 3;
    let triangle_slots = view.generations.len();
    if 65536 < triangle_slots {
        return false;
    }
    if 32768 < vertex_slots {
        return false;
    }
    if view.positions.len() != 3 * vertex_slots {
        return false;
    }
    if view.corners.len() != 3 * triangle_slots {
        return false;
    }
    if view.links.len() != 3 * triangle_slots {
        return false;
    }
    view.locks.len() == triangle_slots
}

// Whether the counts are at least 1 and within the slots, and their rule is known.
fn counts_fit(view: &View, counts: Counts) -> bool
    ensures { result ≡ counts_fit (mesh_with counts (seen view.now)) }
{
    if !points::known_rule(counts.rule) {
        return false;
    }
    if counts.vertices < 1 {
        return false;
    }
    if counts.triangles < 1 {
        return false;
    }
    if view.positions.len() / 3 < counts.vertices as usize {
        return false;
    }
    counts.triangles as usize <= view.generations.len()
}

// Whether the first n coordinates are in range. No early return: the loop then reads several at once.
// Kept: C lends whole tables, and the counts say how much of them is in use.
#[tactic(auto, using(theory::proofs::Numbers::Decide::all_and), unfolding(rules::specs::Below::all))]
fn coordinates_fit(positions: &[i32], n: usize) -> bool
    requires { n ≤ length positions.now }
    ensures { result ≡ all n (λ i. in_range (get_or positions.now i (pos 0))) }
{
    let mut fit = true;
    for x in &positions[..n] {
        fit &= points::in_range(*x);
    }
    fit
}

// Whether the first n locks are 0 or 1, read in the same way.
// Kept: C lends whole tables, and the counts say how much of them is in use.
#[tactic(auto, using(theory::proofs::Numbers::Decide::all_and), unfolding(rules::specs::Below::all))]
fn locks_fit(locks: &[u8], n: usize) -> bool
    requires { n ≤ length locks.now }
    ensures { result ≡ all n (λ t. leb (get_or locks.now t 0) 1) }
{
    let mut fit = true;
    for lock in &locks[..n] {
        fit &= *lock <= 1;
    }
    fit
}

// The side where the ring of v starts, or the number of sides, where v has no ring; none where the tables are not
// sound.
#[tactic(auto, using(crate::proofs::Parts::parts))]
pub fn sound_start(view: &View, counts: Counts, v: u32) -> Option<u32>
    ensures { let m = mesh_with counts (seen view.now) in result ≡ start_if (is_sound m) m.topology v }
{
    if !tables_agree(view) {
        return None;
    }
    if !counts_fit(view, counts) {
        return None;
    }
    if !coordinates_fit(view.positions, 3 * (counts.vertices as usize)) {
        return None;
    }
    if !locks_fit(view.locks, counts.triangles as usize) {
        return None;
    }
    surface::start(view, counts, v)
}

// Whether the tables are sound.
pub fn is_sound(view: &View, counts: Counts) -> bool
    ensures { result ≡ is_sound (mesh_with counts (seen view.now)) }
{
    sound_start(view, counts, 0).is_some()
}

// The first refusal of every call but load.
pub fn first_refusal(view: &View, counts: Counts) -> Result<(), Refusal>
    ensures { refused result ≡ standing (mesh_with counts (seen view.now)) }
{
    if !tables_agree(view) {
        return Err(Refusal::TablesDisagree);
    }
    if !is_sound(view, counts) {
        return Err(Refusal::NotSound);
    }
    Ok(())
}

// The refusal of a call that names slot i of the first n, on a mesh that stands or whose own first refusal this is.
pub fn slot_refusal(n: u32, i: u32, stands: Result<(), Refusal>) -> Result<(), Refusal>
    ensures { (m : Mesh) → refused stands ≡ standing m → refused result ≡ slot_refusal n i m }
{
    stands?;
    if n <= i {
        return Err(Refusal::NotInUse);
    }
    Ok(())
}
