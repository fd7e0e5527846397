// The change of one record, made again on a mesh that stands or is refused itself.
#![tactic(auto)]

ghost use Rattle.std.specs.Prelude.{true, List, ◌≡◌, ℕ, ◌+◌, ◌/◌, ◌≤◌, length};
ghost use Rattle.rules.specs.History.{changed};
ghost use Rattle.rules.specs.Numbers.{number_at, signed};
ghost use Rattle.rules.specs.Calls.{lock_call};
ghost use Rattle.rules.specs.Notes.{take_back_call};
ghost use Rattle.tables.specs.Answers.{worked_outcome};
ghost use Rattle.tables.specs.Lent.{held, mesh_now, mesh_with, spares_now, SameTables};
ghost use Rattle.tables.specs.Refusals.{refused};
ghost use Rattle.tables.specs.Standing.{standing};
ghost use Rattle.journal.specs.Journal.{numbers_in, is_kind, entry_of};
ghost use Rattle.journal.specs.Kinds.{number_of};
ghost use Rattle.making.specs.Making.{told, counts_after, Makes};
ghost use Rattle.journal.specs.Replay.{call_of, numbers_of};

use journal::kinds::Kind;
use points::Point;
use tables::refusals::Refusal;
use tables::{Counts, Tables, Worked};

// The numbers that a change of this kind, with a body of this size, has to be read into a table for.
pub fn numbers_of(kind: Kind, size: usize) -> usize
    ensures { (body : List ℕ) → length body ≡ size → result ≡ numbers_of (entry_of (number_of kind) body) }
{
    match kind {
        Kind::RefineList | Kind::TakeBack => size / 4,
        _ => 0,
    }
}

// The numbers of a body, read into the front of a table.
// Kept: no plainer: the loop is `decoding::decode`'s, of whose crate nothing else is used here.
fn numbers_in<'a>(body: &[u8], table: &'a mut [u32]) -> &'a [u32]
    requires { length body.now / 4 ≤ length table.old }
    ensures { result.now ≡ numbers_in (length body.now / 4) body.now }
{
    let n = body.len() / 4;
    for i in 0..n {
        table[i] = points::number_at(body, 4 * i);
    }
    &table[..n]
}

// The point in the three numbers from place i on.
fn point_at(body: &[u8], i: usize) -> Point
    requires { i + 12 ≤ length body.now }
    ensures { result ≡ record {
      x = signed (number_at body.now i);
      y = signed (number_at body.now (i + 4));
      z = signed (number_at body.now (i + 8));
    } }
{
    Point {
        x: points::signed_at(body, i),
        y: points::signed_at(body, i + 4),
        z: points::signed_at(body, i + 8),
    }
}

// The counts after a call, or what it is refused with.
// Kept: the C interface: the calls answer the number of a refusal, 0 for none.
fn told(refusal: u32, counts: Counts) -> Result<Counts, u32>
    ensures { result ≡ told refusal counts }
{
    if refusal == 0 {
        Ok(counts)
    } else {
        Err(refusal)
    }
}

// Sets or clears a lock, and leaves what is lent beside the locks.
// Kept: what is read only is lent for writing here, since one value is not lent for reading and writing in one call.
fn lock_in(
    positions: &mut [i32],
    corners: &mut [u32],
    links: &mut [u32],
    generations: &mut [u8],
    locks: &mut [u8],
    counts: Counts,
    t: u32,
    on: bool,
    stands: Result<(), Refusal>,
) -> Worked
    requires { refused stands ≡ standing (mesh_now counts positions.old corners.old links.old generations.old
        locks.old) }
    ensures { worked_outcome result (spares_now positions.new corners.new links.new generations.new locks.new)
        ≡ lock_call on t (mesh_now counts positions.old corners.old links.old generations.old locks.old) }
{
    mesh::lock_known(
        positions,
        corners,
        links,
        generations,
        locks,
        counts,
        t,
        on,
        stands,
    )
}

// Takes back the refine that wrote the note, and leaves the positions.
// Kept: the same.
fn take_back_in(
    positions: &mut [i32],
    corners: &mut [u32],
    links: &mut [u32],
    generations: &mut [u8],
    locks: &mut [u8],
    counts: Counts,
    stands: Result<(), Refusal>,
    note: &[u32],
) -> Worked
    requires { refused stands ≡ standing (mesh_now counts positions.old corners.old links.old generations.old
        locks.old) }
    ensures { worked_outcome result (spares_now positions.new corners.new links.new generations.new locks.new)
        ≡ take_back_call note.now (mesh_now counts positions.old corners.old links.old generations.old locks.old) }
{
    undoing::take_back(
        positions,
        corners,
        links,
        generations,
        locks,
        counts,
        stands,
        note,
    )
}

// Makes the change of this kind and this body, and tells the counts after it, or what it is refused with. The spare
// tables and the table for numbers are worked in.
pub fn make(
    tables: &mut Tables,
    counts: Counts,
    spares: &mut Tables,
    numbers: &mut [u32],
    stands: Result<(), Refusal>,
    kind: Kind,
    body: &[u8],
) -> Result<Counts, u32>
    requires stands_value { refused stands ≡ standing (mesh_with counts (held tables.old)) }
    requires body_value { (is_kind (number_of kind) (length body.now) ≡ true)
        × (numbers_of (entry_of (number_of kind) body.now) ≤ length numbers.old) }
    ensures makes { Makes (changed (call_of (held spares.old) (entry_of (number_of kind) body.now))
        (mesh_with counts (held tables.old)))
        result (mesh_with (counts_after counts result) (held tables.new)) }
    ensures lent { SameTables tables.new tables.old }
    ensures spares_lent { SameTables spares.new spares.old }
{
    match kind {
        Kind::Load => {
            let done = mesh::load(tables, counts, points::number_at(body, 0), &body[4..]);
            told(done.refusal, done.counts)
        }
        Kind::Refine => {
            let t = points::number_at(body, 0);
            let done = refining::refine(tables, counts, t, stands, &mut [0], 1);
            told(done.refusal, done.counts)
        }
        Kind::WholeStep => {
            let done = mesh::whole_step_known(tables, counts, stands);
            told(done.refusal, done.counts)
        }
        Kind::RefineList => {
            let list = numbers_in(body, numbers);
            let done = batches::refine_list_known(tables, counts, list, spares, stands);
            told(done.refusal, done.counts)
        }
        Kind::RefineBox => {
            let low = point_at(body, 0);
            let high = point_at(body, 12);
            let below = points::number_at(body, 24);
            let done = boxes::refine_box_known(tables, counts, low, high, below, spares, stands);
            told(done.refusal, done.counts)
        }
        Kind::Lock | Kind::Unlock => {
            let t = points::number_at(body, 0);
            let on = kind == Kind::Lock;
            let done = lock_in(
                tables.positions,
                tables.corners,
                tables.links,
                tables.generations,
                tables.locks,
                counts,
                t,
                on,
                stands,
            );
            told(done.refusal, done.counts)
        }
        Kind::TakeBack => {
            let note = numbers_in(body, numbers);
            let done = take_back_in(
                tables.positions,
                tables.corners,
                tables.links,
                tables.generations,
                tables.locks,
                counts,
                stands,
                note,
            );
            told(done.refusal, done.counts)
        }
    }
}
