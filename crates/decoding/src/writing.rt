// Writes what a cage has beside its sides into the lent tables: positions, and zeros for its triangles.
ghost use Rattle.std.specs.Prelude.{◌≡◌, ◌+◌, ◌*◌, ◌≤◌, length};
ghost use Rattle.rules.specs.Below.{fill};
ghost use Rattle.rules.specs.Numbers.{number_at, signed};

// The first coordinates of the cage into the positions.
// Kept: no plainer: a loop for this and `decode` would take a closure longer than itself.
pub fn place(cage: &[u8], count: usize, positions: &mut [i32])
    requires coordinates_in_cage { 8 + 4 * count ≤ length cage.now }
    requires position_room { count ≤ length positions.old }
    ensures { positions.new
        ≡ fill count (λ i. signed (number_at cage.now (8 + 4 * i))) positions.old }
{
    for i in 0..count {
        positions[i] = points::signed_at(cage, 8 + 4 * i);
    }
}

// 0 for the first triangles: their generation, or their lock.
// Kept: no plainer: the counts say how much of C's table is in use, and the fill is the library's.
pub fn clear(count: usize, table: &mut [u8])
    requires { count ≤ length table.old }
    ensures { table.new ≡ fill count (λ i. 0) table.old }
{
    table[..count].fill(0);
}
