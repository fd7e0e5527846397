// A note tried in tables of its own: the mesh that it restores, refined, is to be the present one.
ghost use Rattle.std.specs.Prelude.{◌≡◌};
ghost use Rattle.rules.specs.Sound.{Sound};
ghost use Rattle.tables.specs.Lent.{mesh_with, held, seen, spares_now, SameTables, HasSlots};
ghost use Rattle.restoring.specs.Fitting.{NoteFits};
ghost use Rattle.undoing.specs.Trying.{refines_to, accepted_cut, JustSlots};

use restoring::comparing::same_in_use;
use restoring::putting::put_back_all;
use tables::{Counts, Tables, View};

// Whether the mesh tried is sound and refining t there makes the present one.
#[tactic(auto, unfolding(crate::specs::Trying::refines_to))]
fn refines_to(view: &View, counts: Counts, room: &mut Tables, tried: Counts, t: u32) -> bool
    requires has_slots { HasSlots counts (seen view.now) }
    requires room_slots { HasSlots counts (held room.old) }
    ensures refined { result ≡ refines_to t (mesh_with tried (held room.old))
        (mesh_with counts (seen view.now)) }
    ensures lent { SameTables room.new room.old }
{
    let before = room.view();
    if !soundness::is_sound(&before, tried) {
        return false;
    }
    let Ok(chain) = refining::find(&before, tried, t, Ok(())) else {
        return false;
    };
    let made = refining::carry_out(room, tried, t, chain, &mut [], 0);
    same_in_use(view, counts, &room.view(), made.counts)
}

// Whether a note that fits is accepted, in tables that have just the slots in use.
#[tactic(auto, unfolding(crate::specs::Trying::accepted_cut))]
fn accepts_by(view: &View, counts: Counts, note: &[u32], room: &mut Tables) -> bool
    requires note_fits { NoteFits note.now }
    requires sound { Sound (mesh_with counts (seen view.now)) }
    requires just_slots { JustSlots counts (held room.old) }
    ensures accepted { result ≡ accepted_cut note.now (mesh_with counts (seen view.now)) }
    ensures lent { SameTables room.new room.old }
{
    if counts.vertices < note[1] || counts.triangles < note[2] {
        return false;
    }
    view.copy_mesh(counts, room);
    put_back_all(room, note);
    let old = Counts {
        vertices: note[1],
        triangles: note[2],
        rule: counts.rule,
    };
    refines_to(view, counts, room, old, note[0])
}

// The same in tables that have at least these slots.
// Kept: five slices: those of one lent value cannot all be cut, which the borrow checker does not cover.
pub fn accepts_in(
    view: &View,
    counts: Counts,
    note: &[u32],
    positions: &mut [i32],
    corners: &mut [u32],
    links: &mut [u32],
    generations: &mut [u8],
    locks: &mut [u8],
) -> bool
    requires note_fits { NoteFits note.now }
    requires sound { Sound (mesh_with counts (seen view.now)) }
    requires has_slots { HasSlots counts (spares_now positions.old corners.old links.old generations.old locks.old) }
    ensures { result ≡ accepted_cut note.now (mesh_with counts (seen view.now)) }
{
    let triangles = counts.triangles as usize;
    let sides = 3 * triangles;
    let coordinates = 3 * (counts.vertices as usize);
    let mut room = Tables {
        positions: &mut positions[..coordinates],
        corners: &mut corners[..sides],
        links: &mut links[..sides],
        generations: &mut generations[..triangles],
        locks: &mut locks[..triangles],
    };
    accepts_by(view, counts, note, &mut room)
}
