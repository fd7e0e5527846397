// The slots of a note put back into tables.
ghost use Rattle.std.specs.Prelude.{List, ℤ, ◌≡◌, ◌+◌};
ghost use Rattle.rules.specs.Notes.{old_f, note_slots, note_nine, put_back, put_back_all};
ghost use Rattle.tables.specs.declared.Counts.{Counts};
ghost use Rattle.tables.specs.Lent.{mesh_with, mesh_over, held, SameTables};
ghost use Rattle.restoring.specs.Fitting.{NoteFits};
ghost use Rattle.restoring.specs.Putting.{SlotHeld, SlotRoom, slot_as_triangle};

use tables::{Tables, Triangle};

// Slot i of a note as a triangle.
fn triangle_of(note: &[u32], i: usize) -> Triangle
    requires { SlotHeld note.now i }
    ensures { result ≡ slot_as_triangle note.now i }
{
    let at = 4 + 9 * i;
    let c = [note[at + 1], note[at + 2], note[at + 3]];
    let l = [note[at + 4], note[at + 5], note[at + 6]];
    Triangle {
        corners: c,
        links: l,
        generation: note[at + 7] as u8,
    }
}

// Slot i of a note put into its place.
fn put_back(tables: &mut Tables, note: &[u32], i: usize)
    requires slot_held { SlotHeld note.now i }
    requires slot_room { SlotRoom (note_nine note.now i 0 + 1) (held tables.old) }
    ensures put { (n : Counts) →
        mesh_with n (held tables.new) ≡ put_back note.now i (mesh_with n (held tables.old)) }
    ensures over { (n : Counts) (p : List ℤ) →
        mesh_over n p (held tables.new) ≡ put_back note.now i (mesh_over n p (held tables.old)) }
    ensures lent { SameTables tables.new tables.old }
{
    let at = 4 + 9 * i;
    let slot = note[at];
    let lock = note[at + 8] as u8;
    tables.store(slot, triangle_of(note, i));
    tables.locks[slot as usize] = lock;
}

// All slots of a note that fits.
pub fn put_back_all(tables: &mut Tables, note: &[u32])
    requires note_fits { NoteFits note.now }
    requires slot_room { SlotRoom (old_f note.now) (held tables.old) }
    ensures put { (n : Counts) →
        let note = note.entry.now in
        mesh_with n (held tables.new) ≡ put_back_all note (note_slots note) (mesh_with n (held tables.old)) }
    ensures over { (n : Counts) (p : List ℤ) →
        let note = note.entry.now in
        mesh_over n p (held tables.new) ≡ put_back_all note (note_slots note) (mesh_over n p (held tables.old)) }
    ensures lent { SameTables tables.new tables.old }
{
    let slots = note[3] as usize;
    for i in 0..slots {
        put_back(tables, note, i);
    }
}
