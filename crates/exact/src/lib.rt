// Sums of products of 16-bit numbers, modulo 2^32. A sum that is known to be small is fixed by it, and the loop is one that a
// compiler turns into vector instructions.
#![tactic(auto)]

ghost use Rattle.std.specs.Prelude.{◌≡◌, ◌+◌, ◌^◌, ◌≤◌, ◌*ℤ◌, length};
ghost use Rattle.residue.specs.Rules.{least_residue};
ghost use Rattle.exact.specs.Rules.{dot_product};
ghost use Rattle.exact.specs.Laws.Products.{Summed};

mod matrices;

pub use matrices::{row_sums, turn};

// Products are added up in blocks of two rows of 32, what is left in halves and a quarter of a row: loops of fixed lengths, which a
// compiler lays out flat and makes many at a time.
const ROW: usize = 32;

const BLOCK: usize = 2 * ROW;

const HALF: usize = ROW / 2;

const QUARTER: usize = ROW / 4;

// The sum of the products of two lists, number by number, up to the end of the shorter one, modulo 2^32. A while, since a for over the
// number of blocks, here and in rest, made the full check and the writer slower by a fifth at the largest sizes.
#[tactic(auto, using(crate::proofs::Laws::Products::summing, crate::proofs::Laws::Products::summed_all))]
pub fn dot(x: &[i16], y: &[i16]) -> u32
    ensures { result ≡ dot_product x.now y.now }
{
    let count = x.len().min(y.len());
    let mut sum = 0;
    let mut k = 0;
    while BLOCK <= count - k {
        sum = block(x, y, k, sum);
        k += BLOCK;
    }
    rest(x, y, k, count - k, sum)
}

// A sum with a block of products added, from number start of both lists on, modulo 2^32.
#[tactic(auto, using(crate::proofs::Laws::Products::summing))]
fn block(x: &[i16], y: &[i16], start: usize, before: u32) -> u32
    requires { (start + 64 ≤ length x.now) × (start + 64 ≤ length y.now) }
    ensures { Summed x.now y.now before start 64 result }
{
    let mut sum = before;
    for k in 0..BLOCK / ROW {
        sum = products(x, y, start + k * ROW, ROW, sum);
    }
    sum
}

// The same with count products, half a row at a time.
#[tactic(auto, using(crate::proofs::Laws::Products::summing))]
fn rest(x: &[i16], y: &[i16], start: usize, count: usize, before: u32) -> u32
    requires { (start + count ≤ length x.now) × (start + count ≤ length y.now) }
    ensures { Summed x.now y.now before start count result }
{
    let mut sum = before;
    let mut k = 0;
    while HALF <= count - k {
        sum = products(x, y, start + k, HALF, sum);
        k += HALF;
    }
    last(x, y, start + k, count - k, sum)
}

// The same, a quarter of a row at once, where there are as many.
#[tactic(auto, using(crate::proofs::Laws::Products::summing))]
fn last(x: &[i16], y: &[i16], start: usize, count: usize, before: u32) -> u32
    requires { (start + count ≤ length x.now) × (start + count ≤ length y.now) }
    ensures { Summed x.now y.now before start count result }
{
    if count < QUARTER {
        return products(x, y, start, count, before);
    }
    let sum = products(x, y, start, QUARTER, before);
    products(x, y, start + QUARTER, count - QUARTER, sum)
}

// The same, one by one.
#[tactic(auto, using(crate::proofs::Laws::Products::summing))]
fn products(x: &[i16], y: &[i16], start: usize, count: usize, before: u32) -> u32
    requires { (start + count ≤ length x.now) × (start + count ≤ length y.now) }
    ensures { Summed x.now y.now before start count result }
{
    let mut sum = before;
    for k in 0..count {
        sum = sum.wrapping_add(product(x[start + k], y[start + k]));
    }
    sum
}

// The product of two numbers, modulo 2^32.
fn product(x: i16, y: i16) -> u32
    ensures { result ≡ least_residue (2 ^ 32) (x *ℤ y) }
{
    let product = i32::from(x) * i32::from(y);
    product.cast_unsigned()
}
