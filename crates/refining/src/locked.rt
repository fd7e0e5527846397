// Whether a refine would split or flip a locked triangle, by the base chain of its own.
ghost use Rattle.std.specs.Prelude.{◌&&◌, List, ◌≡◌, ℕ, ◌+◌, ◌*◌, ◌/◌, ◌≤◌, ◌<◌, eqb, ℤ, length, get_or};
ghost use Rattle.rules.specs.Below.{any};
ghost use Rattle.rules.specs.Calls.{alters_locked};
ghost use Rattle.rules.specs.Tables.{is_base, link, locked};
ghost use Rattle.split.specs.Made.{BaseChain};
ghost use Rattle.tables.specs.declared.Counts.{Counts};
ghost use Rattle.tables.specs.Lent.{seen, mesh_now, mesh_with};
ghost use Rattle.refining.specs.Locked.{Follows};

use split::Chain;
use tables::View;

// Whether the triangle in slot t is locked.
fn is_locked(locks: &[u8], t: u32) -> bool
    requires { t < length locks.now }
    ensures { result ≡ eqb (get_or locks.now t 0) 1 }
{
    locks[t as usize] == 1
}

// Whether one of these slots has a locked triangle. All are looked at, so that no branch is taken for each.
fn some_locked(locks: &[u8], slots: &[u32]) -> bool
    requires { (i : ℕ) → i < length slots.now → get_or slots.now i 0 < length locks.now }
    ensures { result ≡ any (length slots.now) (λ i. eqb (get_or locks.now (get_or slots.now i 0) 0) 1) }
{
    let mut some = false;
    for slot in slots {
        some = some | is_locked(locks, *slot);
    }
    some
}

// Whether side h is the base of a locked triangle.
fn is_locked_base(view: &View, h: u32) -> bool
    requires { length view.now.generations.now ≤ length view.now.locks.now }
    ensures { (n : Counts) →
        let m = mesh_with n (seen view.now) in result ≡ (is_base m.topology h && locked m (h / 3)) }
{
    if !split::is_base(view.generations, h) {
        return false;
    }
    is_locked(view.locks, h / 3)
}

// Whether the base of a locked triangle meets triangle t.
fn meets_locked(view: &View, t: u32) -> bool
    requires { (3 * t + 2 < length view.now.links.now) × (length view.now.generations.now ≤ length view.now.locks.now) }
    ensures { (n : Counts) →
        let m = mesh_with n (seen view.now) in
        result ≡ any 3 (λ i. let h = link m.topology (3 * t + i) in is_base m.topology h && locked m (h / 3)) }
{
    let first = 3 * (t as usize);
    let mut some = false;
    for i in 0..3 {
        some = some | is_locked_base(view, view.links[first + i]);
    }
    some
}

// Whether a locked triangle would be split or flipped by a refine: one of the chain, or one whose base meets its end.
pub fn alters_locked(view: &View, chain: Chain) -> bool
    requires { Follows chain (seen view.now) }
    ensures { (n : Counts) (p : List ℤ) (c : List ℕ) (t : ℕ) →
        let m = mesh_now n p c view.now.links.now view.now.generations.now view.now.locks.now in
        BaseChain m.topology t chain → result ≡ alters_locked t m }
{
    if some_locked(view.locks, &chain.slots[..chain.odd as usize]) {
        return true;
    }
    if is_locked(view.locks, chain.end) {
        return true;
    }
    meets_locked(view, chain.end)
}
