// The old slots that a refine changes, listed before the work, in rising order.
ghost use Rattle.std.specs.Prelude.{List, ◌≡◌, ℕ, ◌+◌, ◌-◌, ◌*◌, ◌≤◌, ◌<◌, ℤ, length, get_or, drop};
ghost use Rattle.rules.specs.Notes.{changed_slots, refined};
ghost use Rattle.tables.specs.Lent.{mesh_now};
ghost use Rattle.tables.specs.declared.Counts.{Counts};
ghost use Rattle.noting.specs.Rising.{Rising, Adds};
ghost use Rattle.noting.specs.Changed.{Meets, Near, NearOne, NearMet, NearMets, AllMeet, Unmet, Beside, Met};
ghost use Rattle.noting.specs.Changed.{Sides, Joins, FrontIs};
ghost use Rattle.refining.specs.Finding.{Goes};

use crate::rising::insert;
use split::Chain;
use tables::View;

// Puts the triangle whose base meets side h behind the first n of these, if there is one.
// Kept: no heap; the room of the odd ones is fixed, with their number beside it.
fn add_met(links: &[u32], generations: &[u8], odd: &mut [u32], n: usize, h: usize) -> usize
    requires { (n < length odd.old) × Met links.now generations.now h }
    ensures { Joins links.now odd.old n (NearMet links.now generations.now h)
        odd.new result × (result ≤ n + 1) × (result ≡ n + 1 → Meets links.now generations.now h) }
{
    let across = links[h];
    if !split::is_base(generations, across) {
        return n;
    }
    odd[n] = across / 3;
    n + 1
}

// Puts those whose bases meet triangle v behind them.
// Kept: no heap; the room of the odd ones is fixed, with their number beside it.
fn add_mets(links: &[u32], generations: &[u8], odd: &mut [u32], n: usize, v: u32) -> usize
    requires { (n + 2 < length odd.old) × ((i : ℕ) → i < 3 → Met links.now generations.now (3 * v + i)) }
    ensures { Joins links.now odd.old n (NearMets links.now generations.now v)
        odd.new result × (result ≤ n + 3)
        × (result ≡ n + 3 → AllMeet links.now generations.now v) }
{
    let first = 3 * (v as usize);
    let met = add_met(links, generations, odd, n, first);
    let met_1 = add_met(links, generations, odd, met, first + 1);
    add_met(links, generations, odd, met_1, first + 2)
}

// Lists x, and the triangle across its side 1.
// Kept: no heap; the slots stand in a fixed array, in order.
fn list_near(links: &[u32], slots: &mut [u32], from: usize, x: u32) -> usize
    requires { Rising slots.old from × (4 < from) × (x < 4294967295) × (3 * x + 1 < length links.now) }
    ensures { Adds slots.old from (Near links.now x) slots.new result
        × (from ≤ result + 2) }
{
    let own = insert(slots, from, x);
    let across = links[3 * (x as usize) + 1];
    if across == tables::BOUNDARY {
        return own;
    }
    insert(slots, own, across / 3)
}

// Lists these, and the triangles across their sides 1.
// Kept: no heap; the slots stand in a fixed array, in order.
fn list_all(links: &[u32], odd: &[u32], slots: &mut [u32], from: usize) -> usize
    requires { Rising slots.old from × (2 * length odd.now + 4 ≤ from) × Sides links.now odd.now (length odd.now) }
    ensures { Adds slots.old from (NearOne links.now odd.now (length odd.now)) slots.new result
        × (from ≤ result + 2 * length odd.now) }
{
    let mut at = from;
    for x in odd {
        at = list_near(links, slots, at, *x);
    }
    at
}

// Lists the triangle across side h, if its base does not meet the side.
// Kept: no heap; the slots stand in a fixed array, in order.
fn list_unmet(links: &[u32], generations: &[u8], slots: &mut [u32], from: usize, h: usize) -> usize
    requires { Rising slots.old from × (3 < from) × (h < length links.now) }
    ensures { Adds slots.old from (Unmet links.now generations.now h) slots.new result
        × (from ≤ result + 1) }
{
    let across = links[h];
    if across == tables::BOUNDARY {
        return from;
    }
    if split::is_base(generations, across) {
        return from;
    }
    insert(slots, from, across / 3)
}

// Lists the triangles across the sides 1 and 2 of triangle v whose bases do not meet it.
// Kept: no heap; the slots stand in a fixed array, in order.
fn list_beside(links: &[u32], generations: &[u8], slots: &mut [u32], from: usize, v: u32) -> usize
    requires { Rising slots.old from × (4 < from) × (3 * v + 2 < length links.now) }
    ensures { Adds slots.old from (Beside links.now generations.now v)
        slots.new result }
{
    let first = 3 * (v as usize);
    let second = list_unmet(links, generations, slots, from, first + 1);
    list_unmet(links, generations, slots, second, first + 2)
}

// Lists the slots in use that a refine along this chain changes, in rising order, behind the place that is answered:
// the odd triangles of the chain before its last and those whose bases meet its end, all with those across their sides
// 1; and its end with those beside it. (The last odd one meets the end, or is the end.)
// Kept: no heap; the slots stand in a fixed array, in order.
pub fn list_changed(view: &View, chain: Chain, slots: &mut [u32]) -> usize
    requires { Rising slots.old 32
        × ((t : ℕ) × (n : Counts) × (p : List ℤ) × (c : List ℕ) × (k : List ℕ)
        × Goes t (mesh_now n p c view.now.links.now view.now.generations.now k) chain) }
    ensures { (result ≤ 32) × ((t : ℕ) (n : Counts) (p : List ℤ) (c k : List ℕ) →
        let m = mesh_now n p c view.now.links.now view.now.generations.now k in
        Goes t m chain → FrontIs (changed_slots m (refined t m)) (drop (result + 1) slots.new) (32 - result)) }
{
    let links = view.links;
    let generations = view.generations;
    let mut odd = chain.slots;
    let before = chain.odd.saturating_sub(1) as usize;
    let n = add_mets(links, generations, &mut odd, before, chain.end);
    let near = list_all(links, &odd[..n], slots, 32);
    let own = insert(slots, near, chain.end);
    if n == before + 3 {
        return own;
    }
    list_beside(links, generations, slots, own, chain.end)
}
