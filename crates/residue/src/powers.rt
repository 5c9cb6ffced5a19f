// Powers of two.
ghost use Rattle.std.specs.Prelude.{◌≡◌};
ghost use Rattle.residue.specs.Rules.{power_of_two};

use crate::Residue;

impl Residue {
    // 2^30 is the largest power of two below p.
    const LARGEST_EXPONENT: u32 = 30;

    // Two to the power k, and 0 for an exponent above 30.
    pub fn power_of_two(k: u32) -> Residue
        ensures { result.0 ≡ power_of_two k }
    {
        if Residue::LARGEST_EXPONENT < k {
            return Residue::ZERO;
        }
        Residue(1 << k)
    }
}
