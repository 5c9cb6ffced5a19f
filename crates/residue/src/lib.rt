// Residue arithmetic modulo p = 2^31 - 1. Every call takes every value of its parameters, a number of p or more is reduced
// first, and each result is fixed by its contract. The rules that the contracts cite are in specs/Rules.antt.
#![tactic(auto)]

ghost use Rattle.std.specs.Prelude.{◌≡◌, pos, ◌+ℤ◌, ◌-ℤ◌, ◌*ℤ◌, nat_lt};
ghost use Rattle.residue.specs.Rules.{modulus, least_residue, signed_entry};

mod powers;
mod products;

pub use products::ProductSum;

// A residue, by a number that is equal to it modulo p. The calls below return the least one, from 0 to p - 1.
#[derive(Clone, Copy, Debug, PartialEq, Eq)]
pub struct Residue(pub u32);

// A signed entry, the integer that a residue stands for. The calls below return one from -(p - 1)/2 to (p - 1)/2.
#[derive(Clone, Copy, Debug, PartialEq, Eq)]
pub struct Entry(pub i32);

impl Residue {
    // p
    pub const MODULUS: u32 = 2_147_483_647;

    pub const ZERO: Residue = Residue(0);

    pub const ONE: Residue = Residue(1);

    // (p - 1)/2, the largest residue that stands for itself
    const LARGEST_ENTRY: u32 = (Residue::MODULUS - 1) / 2;

    pub fn zero() -> Residue
        ensures { result.0 ≡ least_residue modulus (pos 0) }
    {
        Residue::ZERO
    }

    pub fn one() -> Residue
        ensures { result.0 ≡ least_residue modulus (pos 1) }
    {
        Residue::ONE
    }

    // p, by its name in the rules: what is proved above of a call of this says nothing of its digits.
    pub fn modulus() -> u32
        ensures { result ≡ modulus }
    {
        Residue::MODULUS
    }

    // Whether this is a least residue, below p.
    pub fn is_least(self) -> bool
        ensures { result ≡ nat_lt self.0 modulus }
    {
        self.0 < Residue::MODULUS
    }

    // The least residue of an unsigned number.
    pub fn reduce(x: u64) -> Residue
        ensures { result.0 ≡ least_residue modulus (pos x) }
    {
        let least = x % u64::from(Residue::MODULUS);
        Residue(least as u32)
    }

    // The least residue of a signed number, any of the 2^32.
    pub fn from_signed(entry: Entry) -> Residue
        ensures { result.0 ≡ least_residue modulus entry.0 }
    {
        // 2p is added, so that the sum is not negative
        let lifted = i64::from(entry.0) + 2 * i64::from(Residue::MODULUS);
        Residue::reduce(lifted as u64)
    }

    pub fn add(self, other: Residue) -> Residue
        ensures { result.0 ≡ least_residue modulus (pos self.0 +ℤ pos other.0) }
    {
        Residue::reduce(u64::from(self.0) + u64::from(other.0))
    }

    pub fn subtract(self, other: Residue) -> Residue
        ensures { result.0 ≡ least_residue modulus (pos self.0 -ℤ pos other.0) }
    {
        // p is added, so that the difference is not negative
        let lifted = u64::from(self.0) + u64::from(Residue::MODULUS);
        Residue::reduce(lifted - u64::from(other.0 % Residue::MODULUS))
    }

    pub fn multiply(self, other: Residue) -> Residue
        ensures { result.0 ≡ least_residue modulus (pos self.0 *ℤ pos other.0) }
    {
        Residue::reduce(u64::from(self.0) * u64::from(other.0))
    }

    // The signed entry that this residue stands for.
    pub fn to_signed(self) -> Entry
        ensures { result.0 ≡ signed_entry modulus (least_residue modulus (pos self.0)) }
    {
        let least = self.0 % Residue::MODULUS;
        if least <= Residue::LARGEST_ENTRY {
            Entry(least as i32)
        } else {
            let negative = (least as i32) - (Residue::MODULUS as i32);
            Entry(negative)
        }
    }
}
