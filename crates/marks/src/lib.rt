// Marks on numbers in two tables of bits, so that the lowest marked number is found in a few steps.
#![tactic(auto)]

ghost use Rattle.std.specs.Prelude.{true, false, ◌≡◌, ℕ, ◌*◌, ◌<◌, ◌≤◌, not, eqb, length, position};
ghost use Rattle.rules.specs.Below.{lowest};
ghost use Rattle.marks.specs.Marks.{bit_at, marked, Levels, MarkPut};

// The word with its bit b on or off.
fn with_bit(word: u64, b: u32, on: bool) -> u64
    requires { b < 64 }
    ensures { (j : ℕ) → bit_at result j ≡ elim (eqb j b) [ true ↦ on | false ↦ bit_at word j ] }
{
    let bit = 1u64 << b;
    if on { word | bit } else { word & !bit }
}

// Whether i is marked in a table.
pub fn is_marked(table: &[u64], i: u32) -> bool
    requires { i < 64 * length table.now }
    ensures { result ≡ marked table.now i }
{
    let word = table[(i / 64) as usize];
    (word >> (i % 64)) % 2 == 1
}

// The mark of i put on or off in a table.
pub fn put(table: &mut [u64], i: u32, on: bool)
    requires { i < 64 * length table.old }
    ensures { MarkPut i on table.old table.new }
{
    let k = (i / 64) as usize;
    table[k] = with_bit(table[k], i % 64, on);
}

// The mark of i put on or off, and that of its word in the table above.
pub fn mark(bits: &mut [u64], words: &mut [u64], i: u32, on: bool)
    requires { Levels bits.old words.old × (i < 64 * length bits.old) }
    ensures { MarkPut i on bits.old bits.new
        × Levels bits.new words.new
        × (length words.new ≡ length words.old) }
{
    put(bits, i, on);
    let k = i / 64;
    let any = bits[k as usize] != 0;
    put(words, k, any);
}

// The first word that is not 0.
// Kept: a loop: of a search by `position` from the second word on, the right twin is refused too.
fn first_word(words: &[u64]) -> Option<usize>
    ensures { result ≡ position (λ w. not (eqb w 0)) words.now }
{
    for k in 0..words.len() {
        if words[k] != 0 {
            return Some(k);
        }
    }
    None
}

// The lowest marked number, or the first past the table where none is marked.
pub fn lowest(bits: &[u64], words: &[u64]) -> u32
    requires { Levels bits.now words.now × (length bits.now ≤ 1024) }
    ensures { result ≡ lowest (64 * length bits.now) (marked bits.now) }
{
    let Some(k) = first_word(words) else {
        return 64 * (bits.len() as u32);
    };
    let i = 64 * k + words[k].trailing_zeros() as usize;
    64 * (i as u32) + bits[i].trailing_zeros()
}
