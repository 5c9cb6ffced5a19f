// The operands and the bias: tests 13, 14 and 18, and their entries as 16-bit numbers, or modulo 2^32.
ghost use Rattle.std.specs.Prelude.{◌≡◌, ◌+◌, ◌*◌, ◌^◌, ◌<◌, ◌≤◌, ◌++◌, length, pos, unsigned_abs};
ghost use Rattle.residue.specs.Rules.{least_residue};
ghost use Rattle.algebra.specs.Laws.Fills.{Filled};
ghost use Rattle.exact.specs.Laws.Matrices.{turned_number};
ghost use Rattle.ticket.specs.Rules.{answered, first_refusal, reason_number};
ghost use Rattle.ticket.specs.Laws.All.{all};
ghost use Rattle.ticket.specs.Laws.Limits.{Within};
ghost use Rattle.writer.specs.Rules.{beyond_number, operands_reading};
ghost use Rattle.writer.specs.Laws.Answers.{length_reading, lengths_reading};
ghost use Rattle.writer.specs.Laws.Operands.{within_at, column_of, BiasReady, NarrowReady, TurnReady, biased_word};

use crate::Job;
use ticket::{PartNumber, Reason, Refusal, Setting};

// The tests 13, 14 and 18, in order.
pub(crate) fn read(job: &Job) -> Result<(), Refusal>
    requires { Within job.now.setting }
    ensures { answered result ≡ operands_reading job.now.setting job.now.a.now job.now.b.now job.now.bias.now }
{
    lengths(job)?;
    entries(job.setting.bound, job.a, job.b)?;
    first_beyond(
        job.setting.largest_bias(),
        Reason::BiasEntry,
        job.bias,
        job.setting.start(PartNumber::BIAS),
    )
}

// Test 13.
fn lengths(job: &Job) -> Result<(), Refusal>
    requires { Within job.now.setting }
    ensures { answered result ≡ lengths_reading job.now.setting job.now.a.now job.now.b.now job.now.bias.now }
{
    length(job.setting, PartNumber::A, job.a)?;
    length(job.setting, PartNumber::B, job.b)?;
    length(job.setting, PartNumber::BIAS, job.bias)
}

// The same of one operand, which is a part of the ticket: its place is the part's number.
fn length(setting: Setting, which: PartNumber, operand: &[i32]) -> Result<(), Refusal>
    requires { Within setting }
    ensures { answered result ≡ length_reading setting which.0 operand.now }
{
    if operand.len() != setting.size(which) as usize {
        return Err(Refusal {
            reason: Reason::OperandLength,
            place: which.0,
        });
    }
    Ok(())
}

// Test 14: the entries of A, then on in B.
fn entries(bound: u32, a: &[i32], b: &[i32]) -> Result<(), Refusal>
    requires { length a.now + length b.now < 2 ^ 32 }
    ensures { answered result ≡ first_refusal 0 (length (a.now ++ b.now)) (beyond_number bound 14 (a.now ++ b.now)) }
{
    first_beyond(bound, Reason::OperandEntry, a, 0)?;
    first_beyond(bound, Reason::OperandEntry, b, a.len() as u32)
}

// Refuses the first entry beyond a bound for the given reason, its place counted from start. The entries are tested without a branch
// first; one by one only where some entry is beyond the bound.
fn first_beyond(bound: u32, reason: Reason, operand: &[i32], start: u32) -> Result<(), Refusal>
    requires { start + length operand.now < 2 ^ 32 }
    ensures { answered result ≡ first_refusal start (length operand.now) (beyond_number bound (reason_number reason) operand.now) }
{
    if all_within(operand, bound) {
        return Ok(());
    }
    for (k, entry) in operand.iter().enumerate() {
        if bound < entry.unsigned_abs() {
            return Err(Refusal {
                reason,
                place: start + (k as u32),
            });
        }
    }
    Ok(())
}

// Whether no entry is beyond the bound.
fn all_within(operand: &[i32], bound: u32) -> bool
    ensures { result ≡ all (length operand.now) (within_at bound operand.now) }
{
    let mut within = true;
    for entry in operand {
        within &= entry.unsigned_abs() <= bound;
    }
    within
}

// A sum with entry k of the bias added, modulo 2^32; the sum itself, where there is no bias.
pub(crate) fn with_bias(bias: &[i32], k: usize, sum: u32) -> u32
    requires { BiasReady bias.now k 1 }
    ensures { result ≡ biased_word bias.now k sum }
{
    if bias.is_empty() {
        return sum;
    }
    sum.wrapping_add(bias[k].cast_unsigned())
}

// All columns of a matrix, one after the other, at the beginning of the list.
pub(crate) fn narrow_columns(matrix: &[i32], height: usize, width: usize, list: &mut [i16])
    requires { TurnReady matrix.now height width list.old }
    ensures { Filled (pos 0) list.old (width * height) (turned_number matrix.now height width) list.new }
{
    let mut start = 0;
    for column in 0..width {
        let end = start + height;
        narrow(matrix, width, column, &mut list[start..end]);
        start = end;
    }
}

// A column of a matrix as 16-bit numbers. A row is the one column of a matrix as wide as 1. A while, since it ends by the place in the
// matrix: so the compiler leaves it as it is. A for over the list was slower by a tenth where matrices are small.
pub(crate) fn narrow(matrix: &[i32], width: usize, column: usize, list: &mut [i16])
    requires { NarrowReady matrix.now width column list.old }
    ensures { Filled (pos 0) list.old (length list.old) (column_of matrix.now width column) list.new }
{
    let mut at = column;
    let mut k = 0;
    while at < matrix.len() {
        list[k] = matrix[at] as i16;
        at += width;
        k += 1;
    }
}
