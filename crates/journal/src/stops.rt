// The record at the front of some bytes, and the header.
ghost use Rattle.std.specs.Prelude.{◌&&◌, ◌≡◌, ◌+◌, ◌≤◌, max, eqb, length, MatchResult};
ghost use Rattle.rules.specs.Numbers.{number_at};
ghost use Rattle.journal.specs.Journal.{stop_at, header_stop};
ghost use Rattle.journal.specs.Kinds.{stop_number, stop_refusal};
ghost use Rattle.journal.specs.Stops.{SealedAt, ReadsRecord, ReadsHeader};

use crate::kinds::Kind;

// Why a replay stops: no byte is left, or what is there is torn, has a wrong checksum, or is of no kind; a call is
// refused; the journal is one of tables with other slots; the table lent for numbers is too short.
#[derive(Clone, Copy)]
pub enum Stop {
    End,
    Torn,
    Checksum,
    NoKind,
    Refused(u32),
    Slots,
    Numbers,
}

impl Stop {
    // The number by which C reads it.
    pub fn number(self) -> u32
        ensures { result ≡ stop_number self }
    {
        match self {
            Stop::End => 1,
            Stop::Torn => 2,
            Stop::Checksum => 3,
            Stop::NoKind => 4,
            Stop::Refused(_) => 5,
            Stop::Slots => 6,
            Stop::Numbers => 7,
        }
    }

    // The refusal of the call that is refused, or 0.
    // Kept: the C interface answers a number, 0 for none.
    pub fn refusal(self) -> u32
        ensures { result ≡ stop_refusal self }
    {
        match self {
            Stop::Refused(refusal) => refusal,
            _ => 0,
        }
    }
}

// A record that is whole: its kind and the size of its body.
#[derive(Clone, Copy)]
pub struct Record {
    pub kind: Kind,
    pub size: usize,
}

// Tests that the n bytes from place i on are there with their checksum behind them.
fn sealed_at(bytes: &[u8], i: usize, n: usize) -> Result<(), Stop>
    requires { i + n ≤ 4294967307 }
    ensures { SealedAt bytes.now i n result }
{
    let end = i + n;
    if bytes.len() < end + 4 {
        return Err(Stop::Torn);
    }
    if points::number_at(bytes, end) != crc::crc32(&bytes[i..end]) {
        return Err(Stop::Checksum);
    }
    Ok(())
}

// The record at the front of the bytes, or why there is none.
pub fn read_record(bytes: &[u8]) -> Result<Record, Stop>
    ensures { ReadsRecord bytes.now result }
{
    if bytes.is_empty() {
        return Err(Stop::End);
    }
    sealed_at(bytes, 0, 8)?;
    let size = points::number_at(bytes, 0);
    let n = size as usize;
    sealed_at(bytes, 12, n)?;
    let kind = Kind::try_from(points::number_at(bytes, 4))?;
    if !kind.takes(size) {
        return Err(Stop::NoKind);
    }
    Ok(Record { kind, size: n })
}

// Why no record is at the front of the bytes, or 0.
// Kept: a public function keeps its promise; inside, `read_record` tells the same as a Result.
pub fn stop_at(bytes: &[u8]) -> u32
    ensures { result ≡ stop_at bytes.now }
{
    match read_record(bytes) {
        Ok(_) => 0,
        Err(stop) => stop.number(),
    }
}

// Whether the numbers in the eight bytes from place i on are these.
fn are_numbers(bytes: &[u8], i: usize, first: usize, second: usize) -> bool
    requires { i + 8 ≤ length bytes.now }
    ensures { result ≡ (eqb (number_at bytes.now i) first
        && eqb (number_at bytes.now (i + 4)) second) }
{
    points::number_at(bytes, i) as usize == first
        && points::number_at(bytes, i + 4) as usize == second
}

// Tests that the bytes have a header of tables with these slots.
pub fn read_header(bytes: &[u8], vertex_slots: usize, triangle_slots: usize) -> Result<(), Stop>
    ensures { ReadsHeader vertex_slots triangle_slots bytes.now result }
{
    if bytes.is_empty() {
        return Err(Stop::End);
    }
    sealed_at(bytes, 0, 16)?;
    if !are_numbers(bytes, 0, 1246515282, 1) {
        return Err(Stop::NoKind);
    }
    if !are_numbers(bytes, 8, vertex_slots, triangle_slots) {
        return Err(Stop::Slots);
    }
    Ok(())
}

// The place of the record to begin with: no record is before the end of the header.
pub fn first_record(at: usize) -> usize
    ensures { result ≡ max 20 at }
{
    at.max(20)
}
