// Sums of 64-bit numbers, as products of two 32-bit numbers are, reduced once at the end. Each number is split at 2^31; the low parts
// are added up in one 64-bit word and the high parts in another, so that up to 2^31 numbers are summed exactly and with no division.
// (Split at 2^32, the high part of a product would be compiled to a second multiplication.)
ghost use Rattle.std.specs.Prelude.{◌≡◌, ◌+◌, ◌*◌, ◌^◌, pos};
ghost use Rattle.residue.specs.Rules.{modulus, least_residue, WithNumber};

use crate::Residue;

// 2^31
const SPLIT: u64 = 2_147_483_648;

// The number low + 2^31 · high.
#[derive(Clone, Copy, Debug, PartialEq, Eq)]
pub struct ProductSum {
    pub low: u64,
    pub high: u64,
}

impl ProductSum {
    // No product yet.
    pub fn new() -> ProductSum
        ensures { (result.low ≡ 0) × (result.high ≡ 0) }
    {
        ProductSum { low: 0, high: 0 }
    }

    // The sum with n added. Past 2^31 numbers a word may wrap, modulo 2^64.
    pub fn add(self, n: u64) -> ProductSum
        ensures { WithNumber self.low self.high n result.low result.high }
    {
        ProductSum {
            low: self.low.wrapping_add(n % SPLIT),
            high: self.high.wrapping_add(n / SPLIT),
        }
    }

    // The least residue of the sum, at every value of its two words. As 2^31 is 1 modulo p, what stands above the low 31 bits of
    // each word is added to these.
    pub fn residue(self) -> Residue
        ensures { result.0 ≡ least_residue modulus (pos (self.low + 2 ^ 31 * self.high)) }
    {
        let low = self.low % SPLIT + self.low / SPLIT;
        let high = self.high % SPLIT + self.high / SPLIT;
        Residue::reduce(low + high)
    }
}
