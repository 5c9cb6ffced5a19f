// The bytes of a ticket: its parts, their records, and the values of these.
ghost use Rattle.std.specs.Prelude.{◌≡◌, ◌+◌, ◌*◌, ◌≤◌, length, if◌then◌else◌, nat_le};
ghost use Rattle.algebra.specs.Rules.{word};
ghost use Rattle.ticket.specs.Rules.{record_bytes, value_at};
ghost use Rattle.ticket.specs.Laws.Limits.{clamped};
ghost use Rattle.ticket.specs.Laws.Layout.{part_bytes};

use crate::{PartNumber, Setting};
use residue::Residue;

// The bytes of a record: kind, a zero byte, row, column, and four bytes of value.
pub const RECORD: usize = 8;

// The bytes of a part of a ticket, as far as the ticket has them.
pub fn part(setting: Setting, ticket: &[u8], which: PartNumber) -> &[u8]
    ensures { result.now ≡ part_bytes (clamped setting) ticket.now which.0 }
{
    let first = RECORD * (setting.start(which) as usize);
    let past = first + RECORD * (setting.size(which) as usize);
    let from = first.min(ticket.len());
    let end = past.min(ticket.len());
    &ticket[from..end]
}

// The value of a record, by its bytes; 0 where they are too few.
pub fn value(bytes: &[u8]) -> Residue
    ensures { result.0 ≡ (if nat_le record_bytes (length bytes.now) then value_at bytes.now 0 else 0) }
{
    if bytes.len() < RECORD {
        return Residue::ZERO;
    }
    Residue(word(bytes[4], bytes[5], bytes[6], bytes[7]))
}

// The value of record i.
pub(crate) fn value_at(records: &[u8], i: usize) -> Residue
    requires { record_bytes * i + record_bytes ≤ length records.now }
    ensures { result.0 ≡ value_at records.now i }
{
    let at = RECORD * i;
    value(&records[at..at + RECORD])
}

// The little-endian number of four bytes.
pub fn word(a: u8, b: u8, c: u8, d: u8) -> u32
    ensures { result ≡ word a b c d }
{
    u32::from_le_bytes([a, b, c, d])
}
