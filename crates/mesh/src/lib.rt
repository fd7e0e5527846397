// The public calls that change one mesh, without spare tables and reports. None asks anything of its caller, but those
// named `known` are to be told the first refusal of the mesh. What cannot be done is refused, and then nothing lent is
// written.
#![tactic(auto)]

ghost use Rattle.std.specs.Prelude.{◌≡◌};
ghost use Rattle.rules.specs.Calls.{load_call, refine_call, whole_step_call, lock_call};
ghost use Rattle.rules.specs.Notes.{noted_call, take_back_call};
ghost use Rattle.tables.specs.Answers.{worked_outcome};
ghost use Rattle.tables.specs.Lent.{held, mesh_with, mesh_now, spares_now, SameTables};
ghost use Rattle.tables.specs.Refusals.{refused};
ghost use Rattle.tables.specs.Standing.{standing};
ghost use Rattle.noting.specs.Noting.{noted_outcome};

use tables::refusals::Refusal;
use tables::{Counts, Tables, View, Worked};

// Loads a cage, to be rounded by this rule, whatever the tables held before.
pub fn load(tables: &mut Tables, counts: Counts, rule: u32, cage: &[u8]) -> Worked
    ensures loaded { worked_outcome result (held tables.new)
        ≡ load_call rule cage.now (mesh_with counts (held tables.old)) }
    ensures lent { SameTables tables.new tables.old }
{
    cage::load(tables, counts, rule, cage)
}

// Refines triangle t.
pub fn refine(tables: &mut Tables, counts: Counts, t: u32) -> Worked
    ensures refined { worked_outcome result (held tables.new) ≡ refine_call t (mesh_with counts (held tables.old)) }
    ensures lent { SameTables tables.new tables.old }
{
    let stands = soundness::first_refusal(&tables.view(), counts);
    refining::refine(tables, counts, t, stands, &mut [], 0)
}

// Refines triangle t, with a note by which it can be taken back.
// Kept: the C interface has this call and one with a report.
pub fn refine_noted(tables: &mut Tables, counts: Counts, t: u32, note: &mut [u32]) -> Worked
    ensures refined { noted_outcome result (held tables.new) note.new
        ≡ noted_call t note.old (mesh_with counts (held tables.old)) }
    ensures lent { SameTables tables.new tables.old }
{
    let stands = soundness::first_refusal(&tables.view(), counts);
    noting::refine_noted(tables, counts, t, stands, note)
}

// Takes back the refine that wrote the note.
// Kept: C lends the positions for reading, so that the five do not go as one.
pub fn take_back(
    positions: &[i32],
    corners: &mut [u32],
    links: &mut [u32],
    generations: &mut [u8],
    locks: &mut [u8],
    counts: Counts,
    note: &[u32],
) -> Worked
    ensures { worked_outcome result (spares_now positions.now corners.new links.new generations.new locks.new)
        ≡ take_back_call note.now (mesh_now counts positions.now corners.old links.old generations.old locks.old) }
{
    let view = View {
        positions,
        corners,
        links,
        generations,
        locks,
    };
    let stands = soundness::first_refusal(&view, counts);
    undoing::take_back(
        positions,
        corners,
        links,
        generations,
        locks,
        counts,
        stands,
        note,
    )
}

// The whole smoothing step on a mesh that stands or is refused itself.
pub fn whole_step_known(tables: &mut Tables, counts: Counts, stands: Result<(), Refusal>) -> Worked
    requires { refused stands ≡ standing (mesh_with counts (held tables.old)) }
    ensures stepped { worked_outcome result (held tables.new) ≡ whole_step_call (mesh_with counts (held tables.old)) }
    ensures lent { SameTables tables.new tables.old }
{
    match stands {
        Ok(()) => step::smoothing_step(tables, counts),
        Err(refusal) => Worked::refused(refusal, counts),
    }
}

// The whole smoothing step.
pub fn whole_step(tables: &mut Tables, counts: Counts) -> Worked
    ensures stepped { worked_outcome result (held tables.new) ≡ whole_step_call (mesh_with counts (held tables.old)) }
    ensures lent { SameTables tables.new tables.old }
{
    let stands = soundness::first_refusal(&tables.view(), counts);
    whole_step_known(tables, counts, stands)
}

// Sets or clears the lock of triangle t of a mesh that stands or is refused itself.
// Kept: C lends all but the locks for reading, so that the five do not go as one.
pub fn lock_known(
    positions: &[i32],
    corners: &[u32],
    links: &[u32],
    generations: &[u8],
    locks: &mut [u8],
    counts: Counts,
    t: u32,
    on: bool,
    stands: Result<(), Refusal>,
) -> Worked
    requires { refused stands ≡ standing (mesh_now counts positions.now corners.now links.now generations.now
        locks.old) }
    ensures { worked_outcome result (spares_now positions.now corners.now links.now generations.now locks.new)
        ≡ lock_call on t (mesh_now counts positions.now corners.now links.now generations.now locks.old) }
{
    if let Err(refusal) = soundness::slot_refusal(counts.triangles, t, stands) {
        return Worked::refused(refusal, counts);
    }
    locks[t as usize] = on.into();
    Worked::done(counts)
}

// Sets or clears the lock of triangle t.
// Kept: C lends all but the locks for reading, so that the five do not go as one.
pub fn lock(
    positions: &[i32],
    corners: &[u32],
    links: &[u32],
    generations: &[u8],
    locks: &mut [u8],
    counts: Counts,
    t: u32,
    on: bool,
) -> Worked
    ensures { worked_outcome result (spares_now positions.now corners.now links.now generations.now locks.new)
        ≡ lock_call on t (mesh_now counts positions.now corners.now links.now generations.now locks.old) }
{
    let view = View {
        positions,
        corners,
        links,
        generations,
        locks,
    };
    let stands = soundness::first_refusal(&view, counts);
    lock_known(
        positions,
        corners,
        links,
        generations,
        locks,
        counts,
        t,
        on,
        stands,
    )
}
