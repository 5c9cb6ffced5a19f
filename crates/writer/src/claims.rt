// The claims: quotient and remainder of each exact sum with its bias, and their records.
ghost use Rattle.std.specs.Prelude.{◌≡◌, ◌≤◌, length};
ghost use Rattle.writer.specs.Laws.Answers.{JobReady};
ghost use Rattle.writer.specs.Laws.Claims.{Lifting, Claimed};
ghost use Rattle.writer.specs.Laws.Rows.{ClaimsWrote, RowReady, Room, RowsReady, RowWrote};

use crate::Job;
use crate::operands::{narrow, narrow_columns, with_bias};
use crate::records::{COLUMN, write_record};
use residue::Residue;
use ticket::Setting;

// The most entries of B, and of a row of A; the most sums of a row. Where B has few entries, all is held in small arrays, which are
// cleared sooner.
const ENTRIES: usize = (Setting::MOST_INNER * Setting::MOST_COLUMNS) as usize;

const ROW: usize = Setting::MOST_INNER as usize;

const SUMS: usize = Setting::MOST_COLUMNS as usize;

const SMALL: usize = 64;

const TINY: usize = 8;

// A claim's two values.
#[derive(Clone, Copy)]
struct Claim {
    quotient: Residue,
    remainder: Residue,
}

// What divides the sums: the setting, half of its quotients' range, and by how much a sum is lifted before it is divided.
#[derive(Clone, Copy)]
struct Division {
    setting: Setting,
    half: Residue,
    lift: u32,
}

// The records of all claims.
pub(crate) fn write_claims(job: &Job, output: &mut [u8])
    requires { JobReady job.now.setting job.now.half.0 job.now.a.now job.now.b.now job.now.bias.now output.old }
    ensures { ClaimsWrote job.now.setting job.now.a.now job.now.b.now job.now.bias.now job.now.setting.rows output.old output.new }
{
    if job.b.len() <= TINY {
        write_within::<TINY, TINY, TINY>(job, output);
    } else if job.b.len() <= SMALL {
        write_within::<ROW, SMALL, SUMS>(job, output);
    } else {
        write_within::<ROW, ENTRIES, SUMS>(job, output);
    }
}

// The same, in arrays for a row of A, for the columns of B and for the sums of a row.
fn write_within<const LINE: usize, const COLUMNS: usize, const WIDTH: usize>(
    job: &Job,
    output: &mut [u8],
)
    requires { JobReady job.now.setting job.now.half.0 job.now.a.now job.now.b.now job.now.bias.now output.old
        × Room job.now.setting LINE COLUMNS WIDTH }
    ensures { ClaimsWrote job.now.setting job.now.a.now job.now.b.now job.now.bias.now job.now.setting.rows output.old output.new }
{
    let mut line = [0; LINE];
    let mut columns = [0; COLUMNS];
    let mut sums = [0; WIDTH];
    let inner = job.setting.inner as usize;
    let width = job.setting.columns as usize;
    write_rows(
        job,
        &mut line[..inner],
        &mut columns,
        &mut sums[..width],
        output,
    );
}

// The same, row after row, with lists as long as a row of A and its sums.
fn write_rows(job: &Job, line: &mut [i16], columns: &mut [i16], sums: &mut [u32], output: &mut [u8])
    requires { RowsReady job.now.setting job.now.half.0 job.now.a.now job.now.b.now job.now.bias.now line.old columns.old sums.old
        output.old }
    ensures { ClaimsWrote job.now.setting job.now.a.now job.now.b.now job.now.bias.now job.now.setting.rows output.old output.new }
{
    let setting = job.setting;
    let lift = setting.lift_of(job.half) as u32;
    let division = Division {
        setting,
        half: job.half,
        lift,
    };
    let height = setting.rows as u8;
    let width = setting.columns as usize;
    narrow_columns(job.b, setting.inner as usize, width, columns);
    let mut quotients = job.a.len() + job.b.len() + job.bias.len();
    let mut remainders = quotients + usize::from(height) * width;
    let mut from = 0;
    for row in 0..height {
        let end = from + line.len();
        narrow(&job.a[from..end], 1, 0, line);
        exact::row_sums(line, columns, sums);
        let start = usize::from(row) * width;
        division.write_row(row, job.bias, start, sums, quotients, remainders, output);
        quotients += width;
        remainders += width;
        from = end;
    }
}

impl Division {
    // The records of the claims for the sums of a row, the bias of which begins at entry start: the quotients from one record on, the
    // remainders from another.
    fn write_row(
        self,
        row: u8,
        bias: &[i32],
        start: usize,
        sums: &[u32],
        quotients: usize,
        remainders: usize,
        output: &mut [u8],
    )
        requires { RowReady self.setting self.half.0 self.lift bias.now start sums.now quotients remainders output.old }
        ensures { RowWrote self.setting bias.now row start sums.now quotients remainders output.old output.new }
    {
        let mut quotient = ticket::word(3, 0, row, 0);
        let mut remainder = ticket::word(4, 0, row, 0);
        for (column, sum) in sums.iter().enumerate() {
            let sum = with_bias(bias, start + column, *sum);
            let claim = self.divide(sum);
            write_record(output, quotients + column, quotient, claim.quotient);
            write_record(output, remainders + column, remainder, claim.remainder);
            quotient += COLUMN;
            remainder += COLUMN;
        }
    }

    // The claim for one sum S, which is known modulo 2^32. S is lifted by half times the scale and the rounding number o, so that it is
    // not negative: the quotient of the lifted sum is half more than that of S + o, and the remainder is the same.
    fn divide(self, sum: u32) -> Claim
        requires { Lifting self.setting self.half.0 self.lift }
        ensures { Claimed self.setting sum result.quotient.0 result.remainder.0 }
    {
        let lifted = sum.wrapping_add(self.lift);
        let shifted = lifted / self.setting.scale;
        let quotient = if shifted < self.half.0 {
            shifted + (Residue::modulus() - self.half.0)
        } else {
            shifted - self.half.0
        };
        Claim {
            quotient: Residue(quotient),
            remainder: Residue(lifted % self.setting.scale),
        }
    }
}
