// The journal's calls under the names by which C and Rust link them (include/rawplinth.h).
// Kept: the C interface lends five tables as five slices, and answers a refusal or a stop as a number.
ghost use Rattle.std.specs.Prelude.{true, false, ◌≡◌, length};
ghost use Rattle.points.specs.Axes.{box_of};
ghost use Rattle.tables.specs.Lent.{mesh_now, spares_now};
ghost use Rattle.journal.specs.Journal.{header_of, encode, wrote};
ghost use Rattle.journal.specs.Journal.{loaded, refined, stepped, refined_each, refined_in_box, lock_set, taken_back};
ghost use Rattle.journal.specs.Replay.{replay};
ghost use Rattle.redoing.specs.Replaying.{replay_told};

use points::Point;
use redoing::Replayed;
use tables::{Counts, Tables};

// Writes the header of a journal of tables with these slots.
#[unsafe(no_mangle)]
pub extern "C" fn rawplinth_record_header(
    buffer: &mut [u8],
    vertex_slots: u32,
    triangle_slots: u32,
) -> usize
    ensures { (result, buffer.new)
        ≡ wrote (header_of vertex_slots triangle_slots) buffer.old }
{
    journal::append::header(buffer, vertex_slots, triangle_slots)
}

// Writes the record of a load.
#[unsafe(no_mangle)]
pub extern "C" fn rawplinth_record_load(buffer: &mut [u8], rule: u32, cage: &[u8]) -> usize
    ensures { (result, buffer.new)
        ≡ wrote (encode (loaded rule cage.now)) buffer.old }
{
    journal::append::load(buffer, rule, cage)
}

// Writes the record of a refine.
#[unsafe(no_mangle)]
pub extern "C" fn rawplinth_record_refine(buffer: &mut [u8], triangle: u32) -> usize
    ensures { (result, buffer.new) ≡ wrote (encode (refined triangle)) buffer.old }
{
    journal::append::refine(buffer, triangle)
}

// Writes the record of a whole step.
#[unsafe(no_mangle)]
pub extern "C" fn rawplinth_record_whole_step(buffer: &mut [u8]) -> usize
    ensures { (result, buffer.new) ≡ wrote (encode stepped) buffer.old }
{
    journal::append::whole_step(buffer)
}

// Writes the record of a list.
#[unsafe(no_mangle)]
pub extern "C" fn rawplinth_record_list(buffer: &mut [u8], list: &[u32]) -> usize
    ensures { (result, buffer.new)
        ≡ wrote (encode (refined_each list.now)) buffer.old }
{
    journal::append::list(buffer, list)
}

// Writes the record of a box.
#[unsafe(no_mangle)]
pub extern "C" fn rawplinth_record_box(
    buffer: &mut [u8],
    low: Point,
    high: Point,
    below: u32,
) -> usize
    ensures { (result, buffer.new)
        ≡ wrote (encode (refined_in_box (box_of low high below))) buffer.old }
{
    journal::append::refine_box(buffer, low, high, below)
}

// Writes the record of a lock.
#[unsafe(no_mangle)]
pub extern "C" fn rawplinth_record_lock(buffer: &mut [u8], triangle: u32) -> usize
    ensures { (result, buffer.new) ≡ wrote (encode (lock_set true triangle)) buffer.old }
{
    journal::append::lock(buffer, triangle, true)
}

// Writes the record of an unlock.
#[unsafe(no_mangle)]
pub extern "C" fn rawplinth_record_unlock(buffer: &mut [u8], triangle: u32) -> usize
    ensures { (result, buffer.new) ≡ wrote (encode (lock_set false triangle)) buffer.old }
{
    journal::append::lock(buffer, triangle, false)
}

// Writes the record of a take-back.
#[unsafe(no_mangle)]
pub extern "C" fn rawplinth_record_take_back(buffer: &mut [u8], note: &[u32]) -> usize
    ensures { (result, buffer.new)
        ≡ wrote (encode (taken_back note.now)) buffer.old }
{
    journal::append::take_back(buffer, note)
}

// Replays a journal from a place on.
#[unsafe(no_mangle)]
pub extern "C" fn rawplinth_replay(
    positions: &mut [i32],
    corners: &mut [u32],
    links: &mut [u32],
    generations: &mut [u8],
    locks: &mut [u8],
    counts: Counts,
    spare_positions: &mut [i32],
    spare_corners: &mut [u32],
    spare_links: &mut [u32],
    spare_generations: &mut [u8],
    spare_locks: &mut [u8],
    numbers: &mut [u32],
    bytes: &[u8],
    at: usize,
) -> Replayed
    ensures { replay_told result (mesh_now result.counts positions.new corners.new
        links.new generations.new locks.new)
        ≡ replay (record {
          spares = spares_now spare_positions.old spare_corners.old
              spare_links.old spare_generations.old spare_locks.old;
          numbers = length numbers.old;
        }) bytes.now at
        (mesh_now counts positions.old corners.old links.old
        generations.old locks.old) }
{
    let mut tables = Tables {
        positions,
        corners,
        links,
        generations,
        locks,
    };
    let mut spares = Tables {
        positions: spare_positions,
        corners: spare_corners,
        links: spare_links,
        generations: spare_generations,
        locks: spare_locks,
    };
    replaying::replay(&mut tables, counts, &mut spares, numbers, bytes, at)
}
