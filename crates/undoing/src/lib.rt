// The refine taken back by its note, on a mesh that stands or is refused itself. The note is tried on a copy of the
// mesh before the mesh is written.
#![tactic(auto)]

ghost use Rattle.std.specs.Prelude.{◌≡◌};
ghost use Rattle.tables.specs.Answers.{worked_outcome};
ghost use Rattle.tables.specs.Lent.{mesh_with, mesh_now, spares_now, seen};
ghost use Rattle.tables.specs.Refusals.{refused};
ghost use Rattle.rules.specs.Notes.{accepted, take_back_refusal, take_back_call};
ghost use Rattle.rules.specs.Sound.{Sound};
ghost use Rattle.tables.specs.Standing.{standing};

use tables::refusals::Refusal;
use tables::{Counts, Tables, View, Worked};

mod rooms;
mod trying;

// Whether a note is accepted, on a sound mesh.
fn is_accepted(view: &View, counts: Counts, note: &[u32]) -> bool
    requires { Sound (mesh_with counts (seen view.now)) }
    ensures { result ≡ accepted note.now (mesh_with counts (seen view.now)) }
{
    restoring::fitting::note_fits(note) && rooms::accepts(view, counts, note)
}

// The refusal of a take-back, on a mesh that stands or is refused itself.
fn check_note(
    view: &View,
    counts: Counts,
    stands: Result<(), Refusal>,
    note: &[u32],
) -> Result<(), Refusal>
    requires { refused stands ≡ standing (mesh_with counts (seen view.now)) }
    ensures { refused result ≡ take_back_refusal note.now (mesh_with counts (seen view.now)) }
{
    stands?;
    if !is_accepted(view, counts, note) {
        return Err(Refusal::Note);
    }
    Ok(())
}

// Takes back the refine that wrote the note: every slot in use and the counts are as they were. A refusal leaves them.
// Kept: C lends the positions for reading, so that the five do not go as one.
pub fn take_back(
    positions: &[i32],
    corners: &mut [u32],
    links: &mut [u32],
    generations: &mut [u8],
    locks: &mut [u8],
    counts: Counts,
    stands: Result<(), Refusal>,
    note: &[u32],
) -> Worked
    requires { refused stands ≡ standing (mesh_now counts positions.now corners.old links.old generations.old
        locks.old) }
    ensures { worked_outcome result (spares_now positions.now corners.new links.new generations.new locks.new)
        ≡ take_back_call note.now (mesh_now counts positions.now corners.old links.old generations.old locks.old) }
{
    let view = View {
        positions,
        corners,
        links,
        generations,
        locks,
    };
    if let Err(refusal) = check_note(&view, counts, stands, note) {
        return Worked::refused(refusal, counts);
    }
    let mut tables = Tables {
        positions: &mut [],
        corners,
        links,
        generations,
        locks,
    };
    restoring::putting::put_back_all(&mut tables, note);
    Worked::done(Counts {
        vertices: note[1],
        triangles: note[2],
        rule: counts.rule,
    })
}
