// The numbers that the bytes of a file stand for.
ghost use Rattle.std.specs.Prelude.{◌≡◌, ◌+◌, ◌*◌, ◌≤◌, get_or, MatchOption};
ghost use Rattle.files.specs.Rules.{number_bytes, setting_of, word_at};
ghost use Rattle.files.specs.Laws.Numbers.{most_numbers, ListOf, NoList};

use crate::{LONGEST_CHALLENGE, NUMBER};
use ticket::{PlainSetting, Setting};

// The most numbers of a list.
pub(crate) const NUMBERS: usize = LONGEST_CHALLENGE / NUMBER;

// The setting in a file of 20 bytes, which has no bias.
pub(crate) fn setting_of(bytes: &[u8]) -> Setting
    ensures { result ≡ setting_of bytes.now }
{
    Setting::from(PlainSetting {
        rows: u32::from(byte_at(bytes, 0)),
        inner: u32::from(byte_at(bytes, 1)),
        columns: u32::from(byte_at(bytes, 2)),
        vectors: u32::from(byte_at(bytes, 3)),
        scale: word_at(bytes, 4),
        bound: word_at(bytes, 8),
        width: word_at(bytes, 12),
        rounding: word_at(bytes, 16),
    })
}

// The list in a challenge file, put into the room lent. A file holds none whose bytes are no whole number of numbers, or more than any list has.
pub(crate) fn list_of<'a>(bytes: &[u8], room: &'a mut [u32; NUMBERS]) -> Option<&'a [u32]>
    ensures { MatchOption result (NoList bytes.now) (λ list. ListOf bytes.now list.now) }
{
    let count = bytes.len() / NUMBER;
    if bytes.len() % NUMBER != 0 || NUMBERS < count {
        return None;
    }
    let list = &mut room[..count];
    for (k, number) in list.iter_mut().enumerate() {
        *number = word_at(bytes, NUMBER * k);
    }
    Some(list)
}

// The number that begins at a byte.
fn word_at(bytes: &[u8], at: usize) -> u32
    requires { at ≤ number_bytes * most_numbers }
    ensures { result ≡ word_at bytes.now at }
{
    u32::from_le_bytes([
        byte_at(bytes, at),
        byte_at(bytes, at + 1),
        byte_at(bytes, at + 2),
        byte_at(bytes, at + 3),
    ])
}

// A byte, 0 past the end.
fn byte_at(bytes: &[u8], at: usize) -> u8
    ensures { result ≡ get_or bytes.now at 0 }
{
    bytes.get(at).copied().unwrap_or(0)
}
