// Test 16: every claim, row by row.
ghost use Rattle.std.specs.Prelude.{◌≡◌, ◌^◌, ◌<◌, ◌≤◌, length};
ghost use Rattle.ticket.specs.Laws.All.{all};
ghost use Rattle.ticket.specs.Laws.Passes.{Passed};
ghost use Rattle.ticket.specs.Laws.Runs.{steps_answer};
ghost use Rattle.full.specs.Rules.{full_verdict};
ghost use Rattle.full.specs.Laws.Sums.{claimed_for, compared, steps, FirstFound, SumsReady, SumRowReady, RowCompared};
ghost use Rattle.full.specs.Laws.Claims.{Space};

use ticket::{Answer, PartNumber, Reason, Setting};

// The most entries of an operand, and the most claims; the most sums of a row.
const MOST_ENTRIES: usize = (Setting::MOST_ROWS * Setting::MOST_INNER) as usize;

const MOST_CLAIMS: usize = (Setting::MOST_ROWS * Setting::MOST_COLUMNS) as usize;

const ROW: usize = Setting::MOST_COLUMNS as usize;

// Tickets whose operands and claims are at most so many are worked through in arrays of this length, which take little time to clear.
const SMALL: usize = 64;

// All claims, one after the other, up to the first untrue one.
pub(crate) fn check_claims(setting: Setting, ticket: &[u8]) -> Answer
    requires { Passed setting ticket.now }
    ensures { result ≡ full_verdict setting ticket.now }
{
    let small = SMALL as u32;
    if (setting.size(PartNumber::A) <= small)
        && (setting.size(PartNumber::B) <= small)
        && (setting.size(PartNumber::QUOTIENTS) <= small)
    {
        return check_in::<SMALL, SMALL>(setting, ticket);
    }
    check_in::<MOST_ENTRIES, MOST_CLAIMS>(setting, ticket)
}

// The same in arrays for so many entries of an operand and so many claims.
fn check_in<const ENTRIES: usize, const CLAIMS: usize>(setting: Setting, ticket: &[u8]) -> Answer
    requires { Passed setting ticket.now × Space setting ENTRIES ENTRIES CLAIMS × (ENTRIES < 2 ^ 32) × (CLAIMS < 2 ^ 32) }
    ensures { result ≡ full_verdict setting ticket.now }
{
    let mut rows = [0; ENTRIES];
    let mut columns = [0; ENTRIES];
    let mut claims = [0; CLAIMS];
    decode_and_compare(setting, ticket, &mut rows, &mut columns, &mut claims)
}

// The same, with room for the rows of A, the columns of B and the claims. The rows of B stand where those of A do after them, until
// they are turned. The bias is taken off the claims, so that these are compared with the sums alone.
fn decode_and_compare(
    setting: Setting,
    ticket: &[u8],
    rows: &mut [i16],
    columns: &mut [i16],
    claims: &mut [u32],
) -> Answer
    requires { Passed setting ticket.now × Space setting (length rows.old) (length columns.old) (length claims.old) }
    ensures { result ≡ full_verdict setting ticket.now }
{
    let a = ticket::part(setting, ticket, PartNumber::A);
    let b = ticket::part(setting, ticket, PartNumber::B);
    let quotients = ticket::part(setting, ticket, PartNumber::QUOTIENTS);
    let remainders = ticket::part(setting, ticket, PartNumber::REMAINDERS);
    let bias = ticket::part(setting, ticket, PartNumber::BIAS);
    ticket::narrow_entries(b, rows);
    exact::turn(rows, setting.inner as u16, setting.columns as u16, columns);
    ticket::narrow_entries(a, rows);
    let half = setting.half();
    ticket::lifted_claims(quotients, remainders, half, setting.scale, claims);
    ticket::subtract_entries(bias, claims);
    let width = setting.columns as usize;
    let decoded = Decoded {
        setting,
        rows,
        columns,
        claims,
        lift: setting.lift_of(half) as u32,
    };
    let mut sums = [0; ROW];
    match decoded.compare(&mut sums[..width]) {
        Ok(products) => Answer {
            products,
            ..Answer::PASSED
        },
        Err(untrue) => untrue,
    }
}

// What is compared: the rows of A and the columns of B, whose sums are lifted, and the claims, lifted and less the bias. It is compared
// modulo 2^32: both are less than p apart.
#[derive(Clone, Copy)]
struct Decoded<'a> {
    setting: Setting,
    rows: &'a [i16],
    columns: &'a [i16],
    claims: &'a [u32],
    lift: u32,
}

impl Decoded<'_> {
    // Each sum, row by row, against its claim, with room for the sums of a row: the products made, or the answer of the first untrue claim.
    fn compare(&self, sums: &mut [u32]) -> Result<u32, Answer>
        requires { SumsReady self.now (length sums.old) }
        ensures { compared result ≡ steps_answer (steps self.now) }
    {
        let mut products = 0;
        for row in 0..self.setting.rows {
            products = self.compare_row(row, products, sums)?;
        }
        Ok(products)
    }

    // The sums of one row, after the products of the rows before it.
    fn compare_row(&self, row: u32, before: u32, sums: &mut [u32]) -> Result<u32, Answer>
        requires { SumRowReady self.now (length sums.old) row before }
        ensures { RowCompared self.now row result }
    {
        let inner = self.setting.inner as usize;
        let width = self.setting.columns as usize;
        let at = (row as usize) * inner;
        let start = (row as usize) * width;
        exact::row_sums(&self.rows[at..at + inner], self.columns, sums);
        match first_untrue(sums, &self.claims[start..start + width], self.lift) {
            None => Ok(before + ((inner * width) as u32)),
            Some(j) => Err(Answer {
                number: Reason::Claim.number(),
                place: (start + j) as u32,
                row: 0,
                products: before + ((inner * (j + 1)) as u32),
            }),
        }
    }
}

// The first of the sums that is not what is claimed for it. All are tested without a branch first; one by one only where that fails.
fn first_untrue(sums: &[u32], claims: &[u32], lift: u32) -> Option<usize>
    requires { length sums.now ≤ length claims.now }
    ensures { FirstFound (length sums.now) (claimed_for sums.now claims.now lift) result }
{
    if all_agree(sums, claims, lift) {
        return None;
    }
    for (j, sum) in sums.iter().enumerate() {
        if sum.wrapping_add(lift) != claims[j] {
            return Some(j);
        }
    }
    None
}

// Whether all of them are.
fn all_agree(sums: &[u32], claims: &[u32], lift: u32) -> bool
    requires { length sums.now ≤ length claims.now }
    ensures { result ≡ all (length sums.now) (claimed_for sums.now claims.now lift) }
{
    let mut all = true;
    for (k, sum) in sums.iter().enumerate() {
        all &= sum.wrapping_add(lift) == claims[k];
    }
    all
}
