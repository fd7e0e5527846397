// What tables have in use, copied into others.
ghost use Rattle.std.specs.Prelude.{◌≡◌, ◌*◌, ◌≤◌, pos, length, get_or};
ghost use Rattle.rules.specs.Below.{fill};
ghost use Rattle.rules.specs.Spares.{copied, same_sizes};
ghost use Rattle.tables.specs.Lent.{mesh_with, held, seen, HasSlots, SameTables};
ghost use Rattle.tables.specs.declared.Counts.{Counts};

use crate::{Counts, Tables, View};

// The first entries of one table into another.
// Kept: tried, with the library's copy of bytes a list of 10,000 misses its bar of 6,636,000 instructions.
pub fn copy<T: Copy>(from: &[T], count: usize, to: &mut [T])
    requires read { count ≤ length from.now }
    requires written { count ≤ length to.old }
    ensures { (none : T) → to.new ≡ fill count (λ i. get_or from.now i none) to.old }
{
    for i in 0..count {
        to[i] = from[i];
    }
}

impl View<'_> {
    // Whether spare tables are as long as these.
    // Kept: no plainer: no value holds the five lengths, and an array of them for each says no more.
    pub fn same_sizes(&self, spares: &View) -> bool
        ensures { (n : Counts) → result ≡ same_sizes (seen spares.now) (mesh_with n (seen self.now)) }
    {
        if spares.positions.len() != self.positions.len() {
            return false;
        }
        if spares.corners.len() != self.corners.len() {
            return false;
        }
        if spares.links.len() != self.links.len() {
            return false;
        }
        if spares.generations.len() != self.generations.len() {
            return false;
        }
        spares.locks.len() == self.locks.len()
    }

    // What a mesh has in use into the same slots of spare tables.
    pub fn copy_mesh(&self, counts: Counts, spares: &mut Tables)
        requires own_slots { HasSlots counts (seen self.now) }
        requires spare_slots { HasSlots counts (held spares.old) }
        ensures copied { held spares.new ≡ copied (mesh_with counts (seen self.now)) (held spares.old) }
        ensures lent { SameTables spares.new spares.old }
    {
        let triangles = counts.triangles as usize;
        let sides = 3 * triangles;
        copy(
            self.positions,
            3 * (counts.vertices as usize),
            spares.positions,
        );
        copy(self.corners, sides, spares.corners);
        copy(self.links, sides, spares.links);
        copy(self.generations, triangles, spares.generations);
        copy(self.locks, triangles, spares.locks);
    }
}
