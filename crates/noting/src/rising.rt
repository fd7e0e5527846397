// Numbers in rising order, in an array in which they end at place 32. The boundary's number stands in the places after
// them and is above all of them. A further number moves those below it, with the place before them, down by one place.
ghost use Rattle.std.specs.Prelude.{List, ◌≡◌, ℕ, ◌+◌, ◌-◌, ◌*◌, ◌≤◌, ◌<◌, length, get_or};
ghost use Rattle.noting.specs.Rising.{Rising, Moved, Passed, Back, Adds};

// Moves the N entries from this place on, which the compiler moves as one. `copy_within` is a loop with tests here, which
// would keep `insert` from being inlined.
fn move_down<const N: usize>(numbers: &mut [u32], at: usize)
    requires { (0 < at) × (at + N ≤ length numbers.old) }
    ensures { Moved numbers.old at (at + N) numbers.new }
{
    for i in 0..N {
        numbers[at + i - 1] = numbers[at + i];
    }
}

// Moves the last N of those that stand before this place back.
fn move_up<const N: usize>(numbers: &mut [u32], at: usize)
    requires { (N < at) × (at ≤ length numbers.old) }
    ensures { (l : List ℕ) (from : ℕ) → Back l from at numbers.old
        → Back l from (at - N) numbers.new }
{
    for i in 0..N {
        numbers[at - i - 1] = numbers[at - i - 2];
    }
}

// Moves entries four at a time, as long as the next after them is below x. That one is none of the four, so that these
// are moved as one.
// Kept: no plainer: the step is not one, and the next is tested after it.
fn pass_fours(numbers: &mut [u32], from: usize, x: u32) -> usize
    requires { Rising numbers.old from × (0 < from) }
    ensures { Passed numbers.old from x result numbers.new
        × (x ≤ get_or numbers.old (result + 4) 0) }
{
    if x <= numbers[from + 4] {
        return from;
    }
    let mut at = from;
    loop {
        move_down::<4>(numbers, at);
        at += 4;
        if x <= numbers[at + 4] {
            return at;
        }
    }
}

// Goes on by N, if the next after these is below x.
// Kept: no heap; the numbers stand in a fixed array, in order.
fn pass_some<const N: usize>(numbers: &mut [u32], at: usize, x: u32) -> usize
    requires { (0 < at) × (at + N < length numbers.old) × (N < 5) }
    ensures { (l : List ℕ) (from : ℕ) → Rising l from → Passed l from x at numbers.old
        → x ≤ get_or l (at + 2 * N) 0
        → Passed l from x result numbers.new × (x ≤ get_or l (result + N) 0) }
{
    if x <= numbers[at + N] {
        return at;
    }
    move_down::<N>(numbers, at);
    at + N
}

// Moves those that were passed back, four at a time, with entries before them where they are fewer.
// Kept: no plainer: the step is not one, and the last may go past the end.
fn move_back(numbers: &mut [u32], from: usize, to: usize)
    requires { (3 < from) × (to ≤ length numbers.old) }
    ensures { (l : List ℕ) → Back l from to numbers.old
        → (i : ℕ) → from < i → get_or numbers.new i 0 ≡ get_or l i 0 }
{
    let mut at = to;
    while from < at {
        move_up::<4>(numbers, at);
        at -= 4;
    }
}

// Puts x among those behind this place, unless it is there; then they stand behind the place that is answered.
// Kept: no heap; the numbers stand in a fixed array, in order.
pub fn insert(numbers: &mut [u32], from: usize, x: u32) -> usize
    requires { Rising numbers.old from × (3 < from) × (x < 4294967295) }
    ensures { Adds numbers.old from (λ y. y ≡ x) numbers.new result × (from ≤ result + 1) }
{
    let fours = pass_fours(numbers, from, x);
    let two = pass_some::<2>(numbers, fours, x);
    let at = pass_some::<1>(numbers, two, x);
    if numbers[at + 1] == x {
        move_back(numbers, from, at);
        return from;
    }
    numbers[at - 1] = numbers[at];
    numbers[at] = x;
    from - 1
}
