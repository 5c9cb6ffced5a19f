// The residue calls, as in the crate dikdumar_residue: an archive has the exported functions of its own crate only. Each has the
// contract of the call that it hands its arguments to.
ghost use Rattle.std.specs.Prelude.{◌≡◌, pos, ◌+ℤ◌, ◌-ℤ◌, ◌*ℤ◌};
ghost use Rattle.residue.specs.Rules.{modulus, least_residue, signed_entry, power_of_two};

use residue::{Entry, Residue};

#[unsafe(no_mangle)]
pub extern "C" fn dikdumar_reduce(x: u32) -> u32
    ensures { result ≡ least_residue modulus (pos x) }
{
    Residue::reduce(u64::from(x)).0
}

#[unsafe(no_mangle)]
pub extern "C" fn dikdumar_add(x: u32, y: u32) -> u32
    ensures { result ≡ least_residue modulus (pos x +ℤ pos y) }
{
    Residue(x).add(Residue(y)).0
}

#[unsafe(no_mangle)]
pub extern "C" fn dikdumar_subtract(x: u32, y: u32) -> u32
    ensures { result ≡ least_residue modulus (pos x -ℤ pos y) }
{
    Residue(x).subtract(Residue(y)).0
}

#[unsafe(no_mangle)]
pub extern "C" fn dikdumar_multiply(x: u32, y: u32) -> u32
    ensures { result ≡ least_residue modulus (pos x *ℤ pos y) }
{
    Residue(x).multiply(Residue(y)).0
}

#[unsafe(no_mangle)]
pub extern "C" fn dikdumar_from_signed(x: i32) -> u32
    ensures { result ≡ least_residue modulus x }
{
    Residue::from_signed(Entry(x)).0
}

#[unsafe(no_mangle)]
pub extern "C" fn dikdumar_to_signed(x: u32) -> i32
    ensures { result ≡ signed_entry modulus (least_residue modulus (pos x)) }
{
    Residue(x).to_signed().0
}

#[unsafe(no_mangle)]
pub extern "C" fn dikdumar_power_of_two(k: u32) -> u32
    ensures { result ≡ power_of_two k }
{
    Residue::power_of_two(k).0
}
