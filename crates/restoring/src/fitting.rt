// The tests of a note that need no mesh.
ghost use Rattle.std.specs.Prelude.{◌≡◌, ◌+◌, ◌*◌, ◌≤◌, length};
ghost use Rattle.restoring.specs.Fitting.{slot_rises, slot_fits, note_fits};

// Whether slot i of a note comes after the one before it.
fn slot_rises(note: &[u32], i: usize) -> bool
    requires { 13 + 9 * i ≤ length note.now }
    ensures { result ≡ slot_rises note.now i }
{
    let at = 4 + 9 * i;
    i == 0 || note[at - 9] < note[at]
}

// Whether it also lies below the old F, with a generation up to 20 and a lock up to 1.
#[tactic(auto, unfolding(crate::specs::Fitting::slot_fits))]
fn slot_fits(note: &[u32], i: usize) -> bool
    requires { 13 + 9 * i ≤ length note.now }
    ensures { result ≡ slot_fits note.now i }
{
    let at = 4 + 9 * i;
    slot_rises(note, i) && note[at] < note[2] && note[at + 7] <= 20 && note[at + 8] <= 1
}

// Whether a note has as many slots as it says, and each of them fits.
#[tactic(auto, unfolding(crate::specs::Fitting::note_fits))]
pub fn note_fits(note: &[u32]) -> bool
    ensures { result ≡ note_fits note.now }
{
    if note.len() < 4 {
        return false;
    }
    let slots = note[3] as usize;
    if note.len() < 4 + 9 * slots {
        return false;
    }
    for i in 0..slots {
        if !slot_fits(note, i) {
            return false;
        }
    }
    true
}
