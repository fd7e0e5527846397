// The calls under the names by which C and Rust link them (include/rawplinth.h). A slice is a pointer and a length.
// Those that change one mesh are here.
// Kept: the C interface lends five tables as five slices, and answers a refusal or a stop as a number.
#![tactic(auto)]

mod journals;
mod lists;
mod reads;
mod reported;

ghost use Rattle.std.specs.Prelude.{true, false, ◌≡◌};
ghost use Rattle.rules.specs.Calls.{load_call, refine_call, whole_step_call, lock_call};
ghost use Rattle.rules.specs.Notes.{noted_call, take_back_call};
ghost use Rattle.tables.specs.Answers.{worked_outcome};
ghost use Rattle.tables.specs.Lent.{mesh_now, spares_now};
ghost use Rattle.noting.specs.Noting.{noted_outcome};

use tables::{Counts, Tables, Worked};

// Loads a cage, to be rounded by a rule.
#[unsafe(no_mangle)]
pub extern "C" fn rawplinth_load(
    positions: &mut [i32],
    corners: &mut [u32],
    links: &mut [u32],
    generations: &mut [u8],
    locks: &mut [u8],
    counts: Counts,
    rule: u32,
    cage: &[u8],
) -> Worked
    ensures { worked_outcome result (spares_now positions.new corners.new links.new generations.new locks.new)
        ≡ load_call rule cage.now (mesh_now counts positions.old corners.old
        links.old generations.old locks.old) }
{
    let mut tables = Tables {
        positions,
        corners,
        links,
        generations,
        locks,
    };
    mesh::load(&mut tables, counts, rule, cage)
}

// Refines one triangle.
#[unsafe(no_mangle)]
pub extern "C" fn rawplinth_refine(
    positions: &mut [i32],
    corners: &mut [u32],
    links: &mut [u32],
    generations: &mut [u8],
    locks: &mut [u8],
    counts: Counts,
    triangle: u32,
) -> Worked
    ensures { worked_outcome result (spares_now positions.new corners.new links.new generations.new locks.new)
        ≡ refine_call triangle (mesh_now counts positions.old corners.old links.old
        generations.old locks.old) }
{
    let mut tables = Tables {
        positions,
        corners,
        links,
        generations,
        locks,
    };
    mesh::refine(&mut tables, counts, triangle)
}

// Refines one triangle, with a note by which it can be taken back.
#[unsafe(no_mangle)]
pub extern "C" fn rawplinth_refine_noted(
    positions: &mut [i32],
    corners: &mut [u32],
    links: &mut [u32],
    generations: &mut [u8],
    locks: &mut [u8],
    counts: Counts,
    triangle: u32,
    note: &mut [u32],
) -> Worked
    ensures { noted_outcome result (spares_now positions.new corners.new links.new generations.new locks.new) note.new
        ≡ noted_call triangle note.old (mesh_now counts positions.old corners.old
        links.old generations.old locks.old) }
{
    let mut tables = Tables {
        positions,
        corners,
        links,
        generations,
        locks,
    };
    mesh::refine_noted(&mut tables, counts, triangle, note)
}

// Takes a refine back by its note.
#[unsafe(no_mangle)]
pub extern "C" fn rawplinth_take_back(
    positions: &[i32],
    corners: &mut [u32],
    links: &mut [u32],
    generations: &mut [u8],
    locks: &mut [u8],
    counts: Counts,
    note: &[u32],
) -> Worked
    ensures { worked_outcome result (spares_now positions.now corners.new links.new generations.new locks.new)
        ≡ take_back_call note.now (mesh_now counts positions.now corners.old
        links.old generations.old locks.old) }
{
    mesh::take_back(positions, corners, links, generations, locks, counts, note)
}

// The whole smoothing step.
#[unsafe(no_mangle)]
pub extern "C" fn rawplinth_whole_step(
    positions: &mut [i32],
    corners: &mut [u32],
    links: &mut [u32],
    generations: &mut [u8],
    locks: &mut [u8],
    counts: Counts,
) -> Worked
    ensures { worked_outcome result (spares_now positions.new corners.new links.new generations.new locks.new)
        ≡ whole_step_call (mesh_now counts positions.old corners.old links.old
        generations.old locks.old) }
{
    let mut tables = Tables {
        positions,
        corners,
        links,
        generations,
        locks,
    };
    mesh::whole_step(&mut tables, counts)
}

// Locks a triangle.
#[unsafe(no_mangle)]
pub extern "C" fn rawplinth_lock(
    positions: &[i32],
    corners: &[u32],
    links: &[u32],
    generations: &[u8],
    locks: &mut [u8],
    counts: Counts,
    triangle: u32,
) -> Worked
    ensures { worked_outcome result (spares_now positions.now corners.now links.now generations.now locks.new)
        ≡ lock_call true triangle (mesh_now counts positions.now corners.now
        links.now generations.now locks.old) }
{
    mesh::lock(
        positions,
        corners,
        links,
        generations,
        locks,
        counts,
        triangle,
        true,
    )
}

// Unlocks a triangle.
#[unsafe(no_mangle)]
pub extern "C" fn rawplinth_unlock(
    positions: &[i32],
    corners: &[u32],
    links: &[u32],
    generations: &[u8],
    locks: &mut [u8],
    counts: Counts,
    triangle: u32,
) -> Worked
    ensures { worked_outcome result (spares_now positions.now corners.now links.now generations.now locks.new)
        ≡ lock_call false triangle (mesh_now counts positions.now corners.now
        links.now generations.now locks.old) }
{
    mesh::lock(
        positions,
        corners,
        links,
        generations,
        locks,
        counts,
        triangle,
        false,
    )
}
