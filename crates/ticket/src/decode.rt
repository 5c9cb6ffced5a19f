// What the records of a ticket are decoded to, for loops over many of them: lists of bare numbers, filled as far as the records and
// the list go. A shift is added to each value modulo p, so that what a value in range stands for is not negative. What comes of other
// values is fixed too, and means nothing. There is a loop for each kind of list: it is one line, and a loop over a closure would need a
// contract for it.
ghost use Rattle.std.specs.Prelude.{◌≡◌, ◌+◌, ◌*◌, ◌%◌, ◌^◌};
ghost use Rattle.residue.specs.Rules.{modulus};
ghost use Rattle.residue.specs.Laws.Modulo.{carried_sum};
ghost use Rattle.ticket.specs.Laws.Decodes.{narrowed, negated_word, ShiftedList, NarrowList, LiftedList, LessList};

use crate::parts::{RECORD, value_at};
use residue::{Entry, Residue};

// 2^15, by which 16-bit entries are shifted
const NARROW: u32 = 32_768;

// The values of records, each with a shift added.
pub fn shifted_entries(records: &[u8], shift: Residue, list: &mut [u32])
    ensures { ShiftedList records.now shift.0 list.old list.new }
{
    let count = (records.len() / RECORD).min(list.len());
    for k in 0..count {
        list[k] = shifted(value_at(records, k), shift.0).0;
    }
}

// The entries that the values of records stand for, where these are 16-bit numbers.
pub fn narrow_entries(records: &[u8], list: &mut [i16])
    ensures { NarrowList records.now list.old list.new }
{
    let count = (records.len() / RECORD).min(list.len());
    for i in 0..count {
        list[i] = entry(shifted(value_at(records, i), NARROW)).0 as i16;
    }
}

// What claims put for their sums, lifted: the shifted quotient times the scale, and the remainder.
pub fn lifted_claims(
    quotients: &[u8],
    remainders: &[u8],
    half: Residue,
    scale: u32,
    list: &mut [u32],
)
    ensures { LiftedList quotients.now remainders.now half.0 scale list.old list.new }
{
    let claims = (quotients.len() / RECORD).min(remainders.len() / RECORD);
    let count = claims.min(list.len());
    for c in 0..count {
        let quotient = shifted(value_at(quotients, c), half.0);
        list[c] = lifted(quotient, scale, value_at(remainders, c));
    }
}

// The entries that the values of records stand for, taken off the numbers of a list modulo 2^32.
pub fn subtract_entries(records: &[u8], list: &mut [u32])
    ensures { LessList records.now list.old list.new }
{
    let count = (records.len() / RECORD).min(list.len());
    for k in 0..count {
        list[k] = list[k].wrapping_add(negated(value_at(records, k)));
    }
}

// A value with a shift added modulo p, where the value is a least residue and the result in the lower half: then a value in the upper
// half comes to p or more with the shift, and to p + 1 or more with 1 carried. There is no branch, and no division where p + 1 is a
// power of two.
fn shifted(value: Residue, shift: u32) -> Residue
    ensures { result.0 ≡ carried_sum modulus value.0 shift }
{
    let wrap = Residue::modulus() + 1;
    let sum = value.0.wrapping_add(shift);
    Residue(sum.wrapping_add(value.0 / (wrap / 2)) % wrap)
}

// The negative of the entry that a value stands for, modulo 2^32.
fn negated(value: Residue) -> u32
    ensures { result ≡ negated_word value.0 }
{
    let largest = Residue::modulus() / 2;
    largest.wrapping_sub(shifted(value, largest).0)
}

// The entry of 16 bits whose value, shifted by 2^15, this is.
fn entry(shifted: Residue) -> Entry
    ensures { result.0 ≡ narrowed shifted.0 }
{
    Entry(((shifted.0 % 65_536) as i32) - (NARROW as i32))
}

// A shifted quotient times the scale and a remainder, modulo 2^32.
fn lifted(quotient: Residue, scale: u32, remainder: Residue) -> u32
    ensures { result ≡ (quotient.0 * scale + remainder.0) % 2 ^ 32 }
{
    quotient.0.wrapping_mul(scale).wrapping_add(remainder.0)
}
