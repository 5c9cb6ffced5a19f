// The setting: its tests, 1, 2, 17, 19 and 3, and what it says of a ticket. The calls that say this take every setting; of one beyond its
// limits they say what the limits come to, so that nothing wraps.
ghost use Rattle.std.specs.Prelude.{◌≡◌, ◌+◌, ◌*◌, min};
ghost use Rattle.ticket.specs.Rules.{failed, sizes_within, numbers_within, bias_within, rounding_within, within};
ghost use Rattle.ticket.specs.Rules.{bias_bound, bias_columns, part, part_size, start, ticket_length, half_range, sum_products};
ghost use Rattle.ticket.specs.Laws.Limits.{Sizes, Numbers, Clamped, clamped, fits_by, number_by};
ghost use Rattle.ticket.specs.Laws.Vectors.{vectored};
ghost use Rattle.ticket.specs.Laws.Widths.{widened};

use crate::Reason;
use crate::parts::RECORD;
use residue::Residue;

// The public parameters of a layer, with a bias or without.
#[derive(Clone, Copy)]
pub struct Setting {
    pub rows: u32,
    pub inner: u32,
    pub columns: u32,
    pub vectors: u32,
    pub scale: u32,
    pub bound: u32,
    pub width: u32,
    pub rounding: u32,
    // the largest absolute value of a bias entry, where a bias is added to each sum
    pub bias: Option<u32>,
}

// Which part of a ticket, by its number in the ticket's order; a number and no enum, since the calls that take it answer for every number.
#[derive(Clone, Copy, Debug, PartialEq, Eq)]
pub struct PartNumber(pub u32);

impl PartNumber {
    pub const A: PartNumber = PartNumber(0);

    pub const B: PartNumber = PartNumber(1);

    pub const BIAS: PartNumber = PartNumber(2);

    pub const QUOTIENTS: PartNumber = PartNumber(3);

    pub const REMAINDERS: PartNumber = PartNumber(4);

    // how many parts there are
    pub(crate) const COUNT: u32 = 5;

    // past the last part
    const END: PartNumber = PartNumber(PartNumber::COUNT);
}

impl Setting {
    // the largest sizes, scale, bounds and width
    pub const MOST_ROWS: u32 = 32;

    pub const MOST_INNER: u32 = 64;

    pub const MOST_COLUMNS: u32 = 32;

    pub const MOST_VECTORS: u32 = 8;

    const MOST_SCALE: u32 = 65_536;

    const MOST_BOUND: u32 = 32_767;

    pub const MOST_WIDTH: u32 = 30;

    const MOST_BIAS_BOUND: u32 = 32_768 * 32_768;

    // the bytes of the longest ticket without a bias, which is that of the largest sizes
    pub const LONGEST_TICKET: usize = RECORD
        * (Setting::MOST_ROWS * Setting::MOST_INNER
            + Setting::MOST_INNER * Setting::MOST_COLUMNS
            + 2 * (Setting::MOST_ROWS * Setting::MOST_COLUMNS)) as usize;

    // The tests 1, 2, 17, 19 and 3, in order; by half of the quotients' range, which the caller has worked out.
    pub fn test(self, half: Residue) -> Result<(), Reason>
        ensures { failed result ≡ number_by self half.0 }
    {
        if !self.sizes_within() {
            return Err(Reason::Sizes);
        }
        if !self.numbers_within() {
            return Err(Reason::Numbers);
        }
        if !self.bias_within() {
            return Err(Reason::BiasBound);
        }
        if !self.rounding_within() {
            return Err(Reason::Rounding);
        }
        if !self.fits(half) {
            return Err(Reason::Fit);
        }
        Ok(())
    }

    // The setting with another width.
    pub fn with_width(self, width: u32) -> Setting
        ensures { result ≡ widened self width }
    {
        Setting { width, ..self }
    }

    // The setting with another number of vectors.
    pub fn with_vectors(self, vectors: u32) -> Setting
        ensures { result ≡ vectored self vectors }
    {
        Setting { vectors, ..self }
    }

    // The largest absolute value of a bias entry; 0 where there is no bias.
    pub fn largest_bias(self) -> u32
        ensures { result ≡ bias_bound self }
    {
        self.bias.unwrap_or(0)
    }

    // How many columns the bias has; 0 where there is none.
    pub fn bias_columns(self) -> u32
        ensures { result ≡ bias_columns self }
    {
        match self.bias {
            Some(_) => self.columns,
            None => 0,
        }
    }

    // How many records a part has.
    pub fn size(self, which: PartNumber) -> u32
        ensures { result ≡ part_size (part (clamped self) which.0) }
    {
        let s = self.clamped();
        match which.0 {
            0 => s.rows * s.inner,
            1 => s.inner * s.columns,
            2 => s.rows * s.bias_columns(),
            3 | 4 => s.rows * s.columns,
            _ => 0,
        }
    }

    // The number of the first record of a part; past the last part, how many records a ticket has.
    pub fn start(self, which: PartNumber) -> u32
        ensures { result ≡ start (clamped self) which.0 }
    {
        let b = self.size(PartNumber::A);
        let bias = b + self.size(PartNumber::B);
        let quotients = bias + self.size(PartNumber::BIAS);
        let remainders = quotients + self.size(PartNumber::QUOTIENTS);
        match which.0 {
            0 => 0,
            1 => b,
            2 => bias,
            3 => quotients,
            4 => remainders,
            _ => remainders + self.size(PartNumber::REMAINDERS),
        }
    }

    // How many bytes a ticket has.
    pub fn length(self) -> usize
        ensures { result ≡ ticket_length (clamped self) }
    {
        RECORD * (self.start(PartNumber::END) as usize)
    }

    // Half of the quotients' range.
    pub fn half(self) -> Residue
        ensures { result.0 ≡ half_range (clamped self) }
    {
        let width = self.clamped().width;
        if width == 0 {
            Residue::ONE
        } else {
            Residue::power_of_two(width - 1)
        }
    }

    // What is added to a sum, and to what a claim puts for it, so that neither is negative and the sum can be divided; by half of the
    // quotients' range, which the caller has worked out.
    pub fn lift_of(self, half: Residue) -> u64
        ensures { result ≡ half.0 * (clamped self).scale + self.rounding }
    {
        (half.0 as u64) * (self.clamped().scale as u64) + (self.rounding as u64)
    }

    // How many products all sums take.
    pub fn products(self) -> u32
        ensures { result ≡ sum_products (clamped self) }
    {
        self.size(PartNumber::A) * self.clamped().columns
    }

    // The setting with no number above its limit, of those that the calls above make sizes and shifts of.
    fn clamped(self) -> Setting
        ensures { (result ≡ clamped self) × Clamped result }
    {
        Setting {
            rows: self.rows.min(Setting::MOST_ROWS),
            inner: self.inner.min(Setting::MOST_INNER),
            columns: self.columns.min(Setting::MOST_COLUMNS),
            scale: self.scale.min(Setting::MOST_SCALE),
            width: self.width.min(Setting::MOST_WIDTH),
            ..self
        }
    }

    fn sizes_within(self) -> bool
        ensures { result ≡ sizes_within self }
    {
        within(1, Setting::MOST_ROWS, self.rows)
            & within(1, Setting::MOST_INNER, self.inner)
            & within(1, Setting::MOST_COLUMNS, self.columns)
            & within(1, Setting::MOST_VECTORS, self.vectors)
    }

    fn numbers_within(self) -> bool
        ensures { result ≡ numbers_within self }
    {
        within(2, Setting::MOST_SCALE, self.scale)
            & within(1, Setting::MOST_BOUND, self.bound)
            & within(1, Setting::MOST_WIDTH, self.width)
    }

    fn bias_within(self) -> bool
        ensures { result ≡ bias_within self }
    {
        self.largest_bias() <= Setting::MOST_BIAS_BOUND
    }

    fn rounding_within(self) -> bool
        ensures { result ≡ rounding_within self }
    {
        self.rounding < self.scale
    }

    fn fits(self, half: Residue) -> bool
        requires { Sizes self × Numbers self }
        ensures { result ≡ fits_by self half.0 }
    {
        let bound = self.bound as u64;
        let sum = (self.inner as u64) * (bound * bound);
        let reach = sum + (self.largest_bias() as u64);
        let scale = self.scale as u64;
        let most = (half.0 as u64) * scale;
        (reach + (self.rounding as u64) + scale - 1 <= most)
            & (2 * most < Residue::modulus() as u64)
    }
}

fn within(low: u32, high: u32, n: u32) -> bool
    ensures { result ≡ within low high n }
{
    (low <= n) & (n <= high)
}
