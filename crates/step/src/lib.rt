// The whole step on sound tables: what it refuses, and its work.
#![tactic(auto)]

ghost use Rattle.std.specs.Prelude.{List, ◌≡◌, ℕ, ◌*◌, ◌≤◌, ℤ, length};
ghost use Rattle.theory.proofs.Calls.Carried.{StepFound};
ghost use Rattle.theory.proofs.Steps.Closed.{closed_step};
ghost use Rattle.rules.specs.Calls.{some_locked, whole_step_refusal, whole_step_call, worked};
ghost use Rattle.rules.specs.Sound.{Sound};
ghost use Rattle.rules.specs.Step.{whole_step};
ghost use Rattle.rules.specs.Tables.{topology_of, mesh_of};
ghost use Rattle.tables.specs.Answers.{worked_outcome};
ghost use Rattle.tables.specs.Lent.{held, seen, mesh_with, SameTables};
ghost use Rattle.tables.specs.Refusals.{refused};
ghost use Rattle.rings.specs.Sums.{Cleared, RingSums};
ghost use Rattle.step.specs.Stepped.{stepped};

use rings::sums::RingSum;
use tables::refusals::Refusal;
use tables::{Counts, Tables, View, Worked};

// Whether some triangle is locked.
// Kept: C lends whole tables, and the counts say how much of them is in use.
#[tactic(auto, using(theory::proofs::Numbers::Decide::any_none), unfolding(rules::specs::Calls::some_locked))]
fn some_locked(locks: &[u8], triangles: u32) -> bool
    requires { triangles ≤ length locks.now }
    ensures { (v rule : ℕ) (p : List ℤ) (c l g : List ℕ) →
        result ≡ some_locked (mesh_of (topology_of v triangles c l g) p locks.now rule) }
{
    let mut some = false;
    for lock in &locks[..triangles as usize] {
        some |= *lock == 1;
    }
    some
}

// All old triangles split and flipped: their children, with the centres of the old triangles as new vertices.
fn split_all(tables: &mut Tables, counts: Counts)
    requires { StepFound (mesh_with counts (held tables.old)) }
    ensures split { mesh_with (stepped counts) (held tables.new)
        ≡ closed_step (mesh_with counts (held tables.old)) }
    ensures lent { SameTables tables.new tables.old }
{
    let f = counts.triangles;
    let g = tables.generations[0] + 2;
    let positions = &mut *tables.positions;
    let corners = &mut *tables.corners;
    dividing::place_centres(positions, corners, counts);
    dividing::write_all(tables.corners, tables.links, counts);
    dividing::set_generations(tables.generations, 3 * (f as usize), g);
    dividing::unlock_new(tables.locks, f);
}

// What the step is refused with. Where it is not, the rings, of which nothing is known at first, have their lengths and
// the sums of their positions.
fn refusal(view: &View, counts: Counts, rings: &mut [RingSum]) -> Result<(), Refusal>
    requires { Sound (mesh_with counts (seen view.now))
        × Cleared counts.vertices rings.old }
    ensures { let m = mesh_with counts (seen view.now) in
        (refused result ≡ whole_step_refusal m) × (refused result ≡ 0 → RingSums m rings.new) }
{
    let f = counts.triangles;
    if !moving::closed_even(view.links, view.generations, f) {
        return Err(Refusal::NotUniform);
    }
    if view.generations[0] == 20 {
        return Err(Refusal::Generation);
    }
    if !rings::sums::ring_sums(view.positions, view.corners, counts, rings) {
        return Err(Refusal::RingLong);
    }
    if some_locked(view.locks, f) {
        return Err(Refusal::Locked);
    }
    if !view.has_room(counts, f, 0) {
        return Err(Refusal::NoSlots);
    }
    Ok(())
}

// The work of the step, with the rings.
fn whole_step(tables: &mut Tables, counts: Counts, rings: &[RingSum]) -> Worked
    requires { let m = mesh_with counts (held tables.old) in
        StepFound m × RingSums m rings.now }
    ensures stepped { worked_outcome result (held tables.new)
        ≡ worked (whole_step (mesh_with counts (held tables.old))) }
    ensures lent { SameTables tables.new tables.old }
{
    let f = counts.triangles;
    split_all(tables, counts);
    moving::move_all(tables.positions, counts, rings);
    Worked {
        refusal: 0,
        splits: f,
        flips: 3 * f / 2,
        counts: Counts {
            vertices: counts.vertices + f,
            triangles: 3 * f,
            rule: counts.rule,
        },
    }
}

// The whole step, with an array lent for the rings, of which nothing is known at first.
fn step_by(tables: &mut Tables, counts: Counts, rings: &mut [RingSum]) -> Worked
    requires { Sound (mesh_with counts (held tables.old))
        × Cleared counts.vertices rings.old }
    ensures stepped { worked_outcome result (held tables.new)
        ≡ whole_step_call (mesh_with counts (held tables.old)) }
    ensures lent { SameTables tables.new tables.old }
{
    match refusal(&tables.view(), counts, rings) {
        Err(refusal) => Worked::refused(refusal, counts),
        Ok(()) => whole_step(tables, counts, rings),
    }
}

// The same for up to N vertices, of which there are no more than 32,768. Each size has a stack frame of its own.
#[inline(never)]
fn step_within<const N: usize>(tables: &mut Tables, counts: Counts) -> Worked
    requires sound { Sound (mesh_with counts (held tables.old)) }
    requires slots { (counts.vertices ≤ N) × (N ≤ 32768) }
    ensures stepped { worked_outcome result (held tables.new)
        ≡ whole_step_call (mesh_with counts (held tables.old)) }
    ensures lent { SameTables tables.new tables.old }
{
    let unknown = RingSum::nothing();
    let mut rings = [unknown; N];
    step_by(tables, counts, &mut rings)
}

// The whole step on sound tables. All is decided before anything lent is written, and a small mesh has little to clear.
// A mesh in one piece that has room for a step has no more than 12,288 vertices.
// Kept: the room is chosen by the size, and no const argument can be computed from it.
pub fn smoothing_step(tables: &mut Tables, counts: Counts) -> Worked
    requires { Sound (mesh_with counts (held tables.old)) }
    ensures stepped { worked_outcome result (held tables.new)
        ≡ whole_step_call (mesh_with counts (held tables.old)) }
    ensures lent { SameTables tables.new tables.old }
{
    if counts.vertices <= 128 {
        return step_within::<128>(tables, counts);
    }
    if counts.vertices <= 2048 {
        return step_within::<2048>(tables, counts);
    }
    if counts.vertices <= 12288 {
        return step_within::<12288>(tables, counts);
    }
    step_within::<32768>(tables, counts)
}
