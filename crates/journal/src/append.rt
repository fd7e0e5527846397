// Writes the header of a journal, and its records, to the front of a lent buffer. Each answers the length, or 0 where
// it does not fit; then the buffer stands.
// Kept: the C interface answers a number.
ghost use Rattle.std.specs.Prelude.{◌++◌, ◌≡◌, ◌+◌, ◌-◌, ◌*◌, ◌≤◌, length, take, drop};
ghost use Rattle.crc.specs.Crc.{crc32};
ghost use Rattle.points.specs.Axes.{box_of};
ghost use Rattle.journal.specs.Appending.{Put};
ghost use Rattle.journal.specs.Journal.{loaded, refined, stepped, refined_each, refined_in_box, lock_set, taken_back};
ghost use Rattle.journal.specs.Journal.{four_bytes, bytes_of, sealed, record_of, encode, header_of, is_room};
ghost use Rattle.journal.specs.Journal.{wrote};
ghost use Rattle.journal.specs.Kinds.{number_of};

use crate::kinds::Kind;
use points::Point;

// Whether a record with a body of n bytes has room, and the body's size four bytes.
fn fits(room: usize, n: usize) -> bool
    ensures { result ≡ is_room (16 + n) room }
{
    n <= 4294967295 && 16 + n <= room
}

// Writes some bytes to the buffer from place `at` on.
// Kept: the C interface: the library needs `memset` alone from outside, and `copy_from_slice` calls `memmove`.
fn put_bytes(buffer: &mut [u8], at: usize, bytes: &[u8])
    requires { at + length bytes.now ≤ length buffer.old }
    ensures { Put buffer.old at bytes.now buffer.new }
{
    for (i, byte) in bytes.iter().enumerate() {
        buffer[at + i] = *byte;
    }
}

// Writes a number.
fn put_number(buffer: &mut [u8], at: usize, n: u32)
    requires { at + 4 ≤ length buffer.old }
    ensures { Put buffer.old at (four_bytes n) buffer.new }
{
    put_bytes(buffer, at, &n.to_le_bytes());
}

// Writes some numbers.
fn put_numbers(buffer: &mut [u8], at: usize, list: &[u32])
    requires { at + 4 * length list.now ≤ length buffer.old }
    ensures { Put buffer.old at (bytes_of list.now) buffer.new }
{
    for (i, n) in list.iter().enumerate() {
        put_number(buffer, at + 4 * i, *n);
    }
}

// Writes the checksum of the bytes from `at` to `end` behind them.
fn seal(buffer: &mut [u8], at: usize, end: usize)
    requires { (at ≤ end) × (end + 4 ≤ length buffer.old) }
    ensures { Put buffer.old end
        (four_bytes (crc32 (take (end - at) (drop at buffer.old)))) buffer.new }
{
    let sum = crc::crc32(&buffer[at..end]);
    put_number(buffer, end, sum);
}

// Writes some numbers and their checksum.
fn put_sealed(buffer: &mut [u8], at: usize, list: &[u32])
    requires { at + 4 * length list.now + 4 ≤ length buffer.old }
    ensures { Put buffer.old at (sealed (bytes_of list.now)) buffer.new }
{
    put_numbers(buffer, at, list);
    seal(buffer, at, at + 4 * list.len());
}

// Writes the record of a kind whose body is some numbers and then some bytes. More than 4294967295 bytes in all are no
// body: its size has four bytes.
fn record(buffer: &mut [u8], kind: Kind, list: &[u32], bytes: &[u8]) -> usize
    ensures { (result, buffer.new)
        ≡ wrote (record_of (number_of kind) (bytes_of list.now ++ bytes.now)) buffer.old }
{
    if list.len() > 1073741823 || bytes.len() > 4294967295 {
        return 0;
    }
    let front = 4 * list.len();
    let n = front + bytes.len();
    if !fits(buffer.len(), n) {
        return 0;
    }
    put_sealed(buffer, 0, &[n as u32, u32::from(kind)]);
    put_numbers(buffer, 12, list);
    put_bytes(buffer, 12 + front, bytes);
    seal(buffer, 12, 12 + n);
    16 + n
}

// Writes the record of a kind whose body is some numbers.
fn numbers(buffer: &mut [u8], kind: Kind, list: &[u32]) -> usize
    ensures { (result, buffer.new)
        ≡ wrote (record_of (number_of kind) (bytes_of list.now)) buffer.old }
{
    record(buffer, kind, list, &[])
}

// The header of a journal for tables with these slots.
pub fn header(buffer: &mut [u8], vertex_slots: u32, triangle_slots: u32) -> usize
    ensures { (result, buffer.new)
        ≡ wrote (header_of vertex_slots triangle_slots) buffer.old }
{
    if buffer.len() < 20 {
        return 0;
    }
    put_sealed(buffer, 0, &[1246515282, 1, vertex_slots, triangle_slots]);
    20
}

// The record of a load of this cage, by this rule. Its body is the rule and the cage.
pub fn load(buffer: &mut [u8], rule: u32, cage: &[u8]) -> usize
    ensures { (result, buffer.new)
        ≡ wrote (encode (loaded rule cage.now)) buffer.old }
{
    record(buffer, Kind::Load, &[rule], cage)
}

// The record of a refine of triangle t.
pub fn refine(buffer: &mut [u8], t: u32) -> usize
    ensures { (result, buffer.new) ≡ wrote (encode (refined t)) buffer.old }
{
    numbers(buffer, Kind::Refine, &[t])
}

// The record of a whole step.
pub fn whole_step(buffer: &mut [u8]) -> usize
    ensures { (result, buffer.new) ≡ wrote (encode stepped) buffer.old }
{
    numbers(buffer, Kind::WholeStep, &[])
}

// The record of a refine of the triangles of a list.
pub fn list(buffer: &mut [u8], list: &[u32]) -> usize
    ensures { (result, buffer.new)
        ≡ wrote (encode (refined_each list.now)) buffer.old }
{
    numbers(buffer, Kind::RefineList, list)
}

// The record of a refine of the triangles with a corner in a box.
pub fn refine_box(buffer: &mut [u8], low: Point, high: Point, below: u32) -> usize
    ensures { (result, buffer.new)
        ≡ wrote (encode (refined_in_box (box_of low high below))) buffer.old }
{
    let list = [
        low.x.cast_unsigned(),
        low.y.cast_unsigned(),
        low.z.cast_unsigned(),
        high.x.cast_unsigned(),
        high.y.cast_unsigned(),
        high.z.cast_unsigned(),
        below,
    ];
    numbers(buffer, Kind::RefineBox, &list)
}

// The record of a lock of triangle t, or of an unlock.
pub fn lock(buffer: &mut [u8], t: u32, on: bool) -> usize
    ensures { (result, buffer.new) ≡ wrote (encode (lock_set on t)) buffer.old }
{
    let kind = if on { Kind::Lock } else { Kind::Unlock };
    numbers(buffer, kind, &[t])
}

// The record of a take-back with this note.
pub fn take_back(buffer: &mut [u8], note: &[u32]) -> usize
    ensures { (result, buffer.new)
        ≡ wrote (encode (taken_back note.now)) buffer.old }
{
    numbers(buffer, Kind::TakeBack, note)
}
