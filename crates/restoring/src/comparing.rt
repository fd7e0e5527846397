// Two meshes compared in every entry in use.
ghost use Rattle.std.specs.Prelude.{◌≡◌};
ghost use Rattle.rules.specs.Notes.{same_in_use};
ghost use Rattle.tables.specs.Lent.{mesh_with, seen, HasSlots};

use tables::{Counts, View};

// Whether other tables, which have slots for the same counts, hold the same mesh.
pub fn same_in_use(view: &View, counts: Counts, other: &View, other_counts: Counts) -> bool
    requires has_slots { HasSlots counts (seen view.now) }
    requires other_slots { HasSlots counts (seen other.now) }
    ensures { result ≡ same_in_use (mesh_with counts (seen view.now))
        (mesh_with other_counts (seen other.now)) }
{
    let triangles = counts.triangles as usize;
    let sides = 3 * triangles;
    let coordinates = 3 * (counts.vertices as usize);
    other_counts == counts
        && other.corners[..sides] == view.corners[..sides]
        && other.links[..sides] == view.links[..sides]
        && other.generations[..triangles] == view.generations[..triangles]
        && other.locks[..triangles] == view.locks[..triangles]
        && other.positions[..coordinates] == view.positions[..coordinates]
}
