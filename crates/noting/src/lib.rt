// The refine with a note of the old slots that it changes, and of what they hold.
#![tactic(auto)]

mod changed;
mod rising;

ghost use Rattle.std.specs.Prelude.{List, ◌++◌, ◌≡◌, ℕ, ◌+◌, ◌*◌, ◌≤◌, ◌<◌, ℤ, length, get_or};
ghost use Rattle.rules.specs.Below.{fill};
ghost use Rattle.rules.specs.Calls.{with_report};
ghost use Rattle.rules.specs.Notes.{nine_of, nines_of, noted_call};
ghost use Rattle.rules.specs.Reports.{with_note, reported_call};
ghost use Rattle.tables.specs.Lent.{held, seen, mesh_with, SameTables, TrianglesAgree};
ghost use Rattle.tables.specs.Refusals.{refused};
ghost use Rattle.tables.specs.declared.Counts.{Counts};
ghost use Rattle.refining.specs.Finding.{Goes};
ghost use Rattle.tables.specs.Standing.{standing};
ghost use Rattle.noting.specs.Changed.{FrontIs};
ghost use Rattle.noting.specs.Noting.{write_from, head_of, Notes, noted_outcome};

use refining::Reported;
use split::Chain;
use tables::refusals::Refusal;
use tables::{Counts, Tables, View, Worked};

// Copies four entries from this place of a table on. All are read before one is written, so that they go as one.
fn copy_four(table: &[u32], first: usize, note: &mut [u32], at: usize)
    requires { (first + 3 < length table.now) × (at + 3 < length note.old) }
    ensures { note.new ≡ write_from at 4 (λ j. get_or table.now (first + j) 0) note.old }
{
    let entry_0 = table[first];
    let entry_1 = table[first + 1];
    let entry_2 = table[first + 2];
    let entry_3 = table[first + 3];
    note[at] = entry_0;
    note[at + 1] = entry_1;
    note[at + 2] = entry_2;
    note[at + 3] = entry_3;
}

// Writes what slot s holds. Of corners and links one entry more is copied, the next slot's first, and written over.
fn write_nine(view: &View, s: u32, note: &mut [u32], at: usize)
    requires { TrianglesAgree (seen view.now) × (length view.now.locks.now ≡ length view.now.generations.now)
        × (s + 1 < length view.now.generations.now) × (at + 8 < length note.old) }
    ensures { (n : Counts) →
        note.new ≡ write_from at 9 (λ j. get_or (nine_of (mesh_with n (seen view.now)) s) j 0) note.old }
{
    let slot = s as usize;
    let first = 3 * slot;
    note[at] = s;
    copy_four(view.corners, first, note, at + 1);
    copy_four(view.links, first, note, at + 4);
    note[at + 7] = view.generations[slot] as u32;
    note[at + 8] = view.locks[slot] as u32;
}

// Writes what stands in a note before its k slots.
fn write_head(counts: Counts, t: u32, k: usize, note: &mut [u32])
    requires { (k ≤ 32) × (4 ≤ length note.old) }
    ensures { note.new
        ≡ fill 4 (λ i. get_or (head_of t counts.vertices counts.triangles k) i 0) note.old }
{
    note[0] = t;
    note[1] = counts.vertices;
    note[2] = counts.triangles;
    note[3] = k as u32;
}

// Writes the note of a refine of t that changes these slots. The view is read as a value of its own, which stays in
// registers: through the lent one each slot would take four instructions more.
fn write_note(view: &View, counts: Counts, t: u32, slots: &[u32], note: &mut [u32])
    requires { TrianglesAgree (seen view.now) × (length view.now.locks.now ≡ length view.now.generations.now)
        × (length slots.now ≤ 32)
        × ((i : ℕ) → i < length slots.now → get_or slots.now i 0 + 1 < length view.now.generations.now)
        × (4 + 9 * length slots.now ≤ length note.old) }
    ensures { (list : List ℕ) → FrontIs list slots.now (length slots.now) →
        let k = length slots.now in
        let m = mesh_with counts (seen view.now) in
        note.new ≡ fill (4 + 9 * k)
        (λ i. get_or (head_of t counts.vertices counts.triangles k ++ nines_of m list) i 0) note.old }
{
    let own = *view;
    write_head(counts, t, slots.len(), note);
    for (i, slot) in slots.iter().enumerate() {
        write_nine(&own, *slot, note, 4 + 9 * i);
    }
}

// Writes the note of a refine of t along this chain; or refuses it where what is lent is too short for it, and then
// where a report of the refine does not fit.
// Kept: no plainer: whether the report fits is asked after the length of the note.
fn note_changes(
    view: &View,
    counts: Counts,
    t: u32,
    chain: Chain,
    note: &mut [u32],
    report_fits: bool,
) -> Result<(), Refusal>
    requires { Goes t (mesh_with counts (seen view.now)) chain }
    ensures { Notes t (mesh_with counts (seen view.now)) note.old report_fits result note.new }
{
    let mut slots: [u32; 40] = [tables::BOUNDARY; 40];
    let from = changed::list_changed(view, chain, &mut slots);
    let listed = &slots[from + 1..33];
    if note.len() < 4 + 9 * listed.len() {
        return Err(Refusal::NoteShort);
    }
    if !report_fits {
        return Err(Refusal::ReportShort);
    }
    write_note(view, counts, t, listed, note);
    Ok(())
}

// Refines triangle t of a mesh that stands or is refused itself, with a note of what it changes.
pub fn refine_noted(
    tables: &mut Tables,
    counts: Counts,
    t: u32,
    stands: Result<(), Refusal>,
    note: &mut [u32],
) -> Worked
    requires { refused stands ≡ standing (mesh_with counts (held tables.old)) }
    ensures refined { noted_outcome result (held tables.new) note.new
        ≡ noted_call t note.old (mesh_with counts (held tables.old)) }
    ensures lent { SameTables tables.new tables.old }
{
    let view = tables.view();
    let chain = match refining::find(&view, counts, t, stands) {
        Ok(chain) => chain,
        Err(refusal) => return Worked::refused(refusal, counts),
    };
    match note_changes(&view, counts, t, chain, note, true) {
        Ok(()) => refining::carry_out(tables, counts, t, chain, &mut [], 0),
        Err(refusal) => Worked::refused(refusal, counts),
    }
}

// Refines triangle t with a note as above, and reports the slots that it writes.
// Kept: the C interface has the call without a report and this one.
pub fn refine_noted_reported(
    tables: &mut Tables,
    counts: Counts,
    t: u32,
    stands: Result<(), Refusal>,
    note: &mut [u32],
    report: &mut [u32],
) -> Reported
    requires { refused stands ≡ standing (mesh_with counts (held tables.old)) }
    ensures refined { with_report report.new result.reported (noted_outcome result.worked (held tables.new) note.new)
        ≡ reported_call (with_note t note.old) report.old (mesh_with counts (held tables.old)) }
    ensures lent { SameTables tables.new tables.old }
{
    let view = tables.view();
    let chain = match refining::find(&view, counts, t, stands) {
        Ok(chain) => chain,
        Err(refusal) => return Reported::refused(refusal.number(), counts),
    };
    let report_fits = reporting::fits(&view, chain, report.len());
    match note_changes(&view, counts, t, chain, note, report_fits) {
        Ok(()) => Reported::carried(refining::carry_out(tables, counts, t, chain, report, 0)),
        Err(refusal) => Reported::refused(refusal.number(), counts),
    }
}
