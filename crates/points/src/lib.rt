// Points with whole coordinates, the rules that make new coordinates, and numbers of four bytes.
#![tactic(auto)]

ghost use Rattle.std.specs.Prelude.{◌≡◌, ◌+◌, ◌*◌, ◌≤◌, ◌<◌, ◌&&◌, ◌||◌, eqb, ltb, pos, ◌+ℤ◌, ◌-ℤ◌, ◌*ℤ◌, length};
ghost use Rattle.theory.proofs.Numbers.Rounding.{mean};
ghost use Rattle.rules.specs.Boxes.{between, box_fits};
ghost use Rattle.rules.specs.Numbers.{in_range, nearest_third, half_up, known_rule, rounded, weight, number_at, signed};
ghost use Rattle.points.specs.Axes.{at, in_box, box_of, thirds, Parts, mean_point, moved_point, limit_point, plus};
ghost use Rattle.points.specs.Axes.{SumOf, Fits, smoothed_point};

// A point, in units of 1/1024 mm.
// Kept: the C interface names this struct, and the viewer's of three f32 beside it.
#[repr(C)]
#[derive(Clone, Copy)]
pub struct Point {
    pub x: i32,
    pub y: i32,
    pub z: i32,
}

impl Point {
    // The least and the greatest coordinate.
    pub const LOW: i32 = -16777216;

    pub const HIGH: i32 = 16777216;

    pub fn new(x: i32, y: i32, z: i32) -> Self
        ensures { result ≡ at x y z }
    {
        Self { x, y, z }
    }

    // The nearest third of the sum on each axis: where a split puts a new vertex.
    pub fn thirds(a: Point, b: Point, c: Point) -> Self
        ensures { result ≡ thirds a b c }
    {
        Self {
            x: third(a.x, b.x, c.x),
            y: third(a.y, b.y, c.y),
            z: third(a.z, b.z, c.z),
        }
    }

    // The mean of x parts at a, y at b and z at c, 27 in all, to the nearest: a point of a smoothed rim.
    pub fn smoothed(x: u64, y: u64, z: u64, a: Point, b: Point, c: Point) -> Self
        requires { x + y + z ≡ 27 }
        ensures { result ≡ smoothed_point x y z a b c }
    {
        Self {
            x: twenty_seventh(x, y, z, a.x, b.x, c.x),
            y: twenty_seventh(x, y, z, a.y, b.y, c.y),
            z: twenty_seventh(x, y, z, a.z, b.z, c.z),
        }
    }

    // The sum of two points, where it fits 32 bits.
    pub fn plus(self, p: Point) -> Self
        requires { Fits (plus self p) }
        ensures { result ≡ plus self p }
    {
        Self {
            x: added(self.x, p.x),
            y: added(self.y, p.y),
            z: added(self.z, p.z),
        }
    }

    // Whether it lies in the box between two points, the faces included.
    pub fn in_box(self, low: Point, high: Point) -> bool
        ensures { result ≡ in_box low high self }
    {
        between(low.x, high.x, self.x)
            && between(low.y, high.y, self.y)
            && between(low.z, high.z, self.z)
    }

    // The mean of a parts at this point and b parts at each of n points that add up to sum, rounded by the rule.
    fn mean(self, rule: u32, a: u64, b: u64, n: usize, sum: Point) -> Self
        requires { Parts a b n }
        ensures { result ≡ mean_point rule a b n self sum }
    {
        Self {
            x: mean_of(rule, a, b, n, self.x, sum.x),
            y: mean_of(rule, a, b, n, self.y, sum.y),
            z: mean_of(rule, a, b, n, self.z, sum.z),
        }
    }

    // Where a vertex moves in a whole step: it has n ring entries, which add up to sum.
    pub fn moved(self, rule: u32, n: usize, sum: Point) -> Self
        requires { (1 ≤ n) × (n ≤ 12) }
        ensures { result ≡ moved_point rule n self sum }
    {
        let w = weight_of(n);
        self.mean(rule, n as u64 * (65536 - w), w, n, sum)
    }

    // Its limit position.
    pub fn limit(self, rule: u32, n: usize, sum: Point) -> Self
        requires { (1 ≤ n) × (n ≤ 12) }
        ensures { result ≡ limit_point rule n self sum }
    {
        let w = weight_of(n);
        self.mean(rule, 65536 * n as u64, 3 * w, n, sum)
    }
}

// The sum of two numbers, where it fits 32 bits.
fn added(s: i32, x: i32) -> i32
    requires { SumOf 1 (s +ℤ x) }
    ensures { result ≡ s +ℤ x }
{
    s + x
}

// Whether x is a coordinate.
pub fn in_range(x: i32) -> bool
    ensures { result ≡ in_range x }
{
    Point::LOW <= x && x <= Point::HIGH
}

// Whether x lies between low and high, or is one of them.
fn between(low: i32, high: i32, x: i32) -> bool
    ensures { result ≡ between low high x }
{
    low <= x && x <= high
}

// Whether the generation is at most 20 and no low coordinate is above the high one, so that the box has its low corner.
pub fn box_fits(low: Point, high: Point, below: u32) -> bool
    ensures { result ≡ box_fits (box_of low high below) }
{
    if 20 < below {
        return false;
    }
    low.in_box(low, high)
}

// A sum of n numbers of 32 bits, with each counted from the least such number, so that none is negative.
// Kept: no plainer: a From may not ask for the range in which alone this holds.
fn raised_sum(s: i64, n: u64) -> u64
    requires { (n ≤ 12) × SumOf n s }
    ensures { (s ≡ pos result -ℤ pos (n * 2147483648)) × (result ≤ n * 4294967295) }
{
    (s + (n * 2147483648) as i64) as u64
}

// One number, so counted.
fn raised(x: i32) -> u64
    ensures { (x ≡ pos result -ℤ pos 2147483648) × (result ≤ 4294967295) }
{
    raised_sum(x as i64, 1)
}

// The number that is k, so counted.
// Kept: no plainer: a From may not ask for the range in which alone this holds.
fn lowered(k: u64) -> i32
    requires { k ≤ 4294967295 }
    ensures { result ≡ pos k -ℤ pos 2147483648 }
{
    (k as i64 - 2147483648) as i32
}

// The whole number nearest to a third of the sum.
fn third(a: i32, b: i32, c: i32) -> i32
    ensures { result ≡ nearest_third (a +ℤ b +ℤ c) }
{
    let sum = raised(a) + raised(b) + raised(c);
    lowered((sum + 1) / 3)
}

// The mean of x parts at a, y at b and z at c, 27 in all, to the nearest.
fn twenty_seventh(x: u64, y: u64, z: u64, a: i32, b: i32, c: i32) -> i32
    requires { x + y + z ≡ 27 }
    ensures { result ≡ half_up (pos x *ℤ a +ℤ pos y *ℤ b +ℤ pos z *ℤ c) 27 }
{
    let sum = x * raised(a) + y * raised(b) + z * raised(c);
    lowered((sum + 13) / 27)
}

// Whether there is such a rule of rounding.
// Kept: the C interface: the rule of rounding comes as a number, of which the theorems speak.
pub fn known_rule(rule: u32) -> bool
    ensures { result ≡ known_rule rule }
{
    rule == 1 || rule == 2
}

// Whether a fraction goes down to this whole number, rest / (2 d) below it: short of a half; by rule 2 at a half too,
// below zero, which is counted as 2147483648.
// Kept: the C interface: the rule of rounding comes as a number, of which the theorems speak.
fn goes_down(rule: u32, down: u64, rest: u64, d: u64) -> bool
    ensures { result ≡ (ltb rest d || (eqb rest d && (eqb rule 2 && ltb down 2147483648))) }
{
    rest < d || (rest == d && (rule == 2 && down < 2147483648))
}

// m / d to the nearest by the rule, with fraction and answer so counted.
fn rounded(rule: u32, m: u64, d: u64) -> u64
    requires { (0 < d) × (m + d < 9223372036854775808) }
    ensures { pos result -ℤ pos 2147483648 ≡ rounded rule (pos m -ℤ pos (2147483648 * d)) d }
{
    let down = m / d;
    if goes_down(rule, down, 2 * (m % d), d) {
        down
    } else {
        down + 1
    }
}

// By the number of ring entries, out of 65536.
const WEIGHTS: [u64; 13] = [
    0, 0, 43691, 36409, 29127, 24627, 21845, 20047, 18829, 17971, 17345, 16875, 16515,
];

fn weight_of(n: usize) -> u64
    requires { n ≤ 12 }
    ensures { result ≡ weight n }
{
    WEIGHTS[n]
}

// The mean of a parts at p and b parts at each of n places that add up to s, in one coordinate, rounded by the rule.
fn mean_of(rule: u32, a: u64, b: u64, n: usize, p: i32, s: i32) -> i32
    requires { Parts a b n }
    ensures { result ≡ mean rule a b n p s }
{
    let k = n as u64;
    let m = a * raised(p) + b * raised_sum(s as i64, k);
    lowered(rounded(rule, m, a + b * k))
}

// The number in the four bytes from place i on.
pub fn number_at(bytes: &[u8], i: usize) -> u32
    requires { i + 4 ≤ length bytes.now }
    ensures { result ≡ number_at bytes.now i }
{
    u32::from_le_bytes([bytes[i], bytes[i + 1], bytes[i + 2], bytes[i + 3]])
}

// The signed number in the four bytes from place i on.
pub fn signed_at(bytes: &[u8], i: usize) -> i32
    requires { i + 4 ≤ length bytes.now }
    ensures { result ≡ signed (number_at bytes.now i) }
{
    number_at(bytes, i).cast_signed()
}
