// Products with a vector, modulo p.
ghost use Rattle.std.specs.Prelude.{◌≡◌, ◌≤◌, length};
ghost use Rattle.residue.specs.Rules.{modulus};
ghost use Rattle.algebra.specs.Laws.Fills.{Filled};
ghost use Rattle.challenge.specs.Laws.Products.{dot_of, dot_with, offset_of, rows_times};
ghost use Rattle.challenge.specs.Laws.Products.{DotReady, NarrowFactors, ProductReady, RecordsReady, Widened, WordVector};

use residue::{ProductSum, Residue};
use ticket::RECORD;

// 2^32. No number of a vector reaches it; a remainder by it tells the compiler so.
pub(crate) const WORD: u64 = 4_294_967_296;

// The first rows of the product of a matrix, a part of the ticket, and a vector that is as long as each of its rows: as many rows as the
// list u has numbers.
pub(crate) fn product(matrix: &[u8], vector: &[u64], u: &mut [u64])
    requires { ProductReady matrix.now (length u.old) vector.now }
    ensures { Filled 0 u.old (length u.old) (rows_times matrix.now vector.now) u.new }
{
    for (k, number) in u.iter_mut().enumerate() {
        let start = k * vector.len();
        *number = u64::from(dot_records(matrix, start, vector).0);
    }
}

// The sum of the products of the values of the records from start on with the numbers of a vector, modulo p.
pub(crate) fn dot_records(records: &[u8], start: usize, vector: &[u64]) -> Residue
    requires { RecordsReady records.now start vector.now }
    ensures { result.0 ≡ dot_of records.now start vector.now }
{
    let mut sum = ProductSum::new();
    for (r, factor) in vector.iter().enumerate() {
        let at = RECORD * (start + r);
        let value = ticket::value(&records[at..at + RECORD]);
        sum = sum.add(u64::from(value.0) * (*factor % WORD));
    }
    sum.residue()
}

// An offset plus the sum of the products of a list of numbers below 2^16 with those of a vector, modulo p. The sum is far below 2^64.
pub(crate) fn dot(list: &[u32], vector: &[u64], offset: u64) -> Residue
    requires { DotReady list.now vector.now × NarrowFactors list.now vector.now offset }
    ensures { result.0 ≡ dot_with offset list.now vector.now }
{
    let mut sum = offset;
    for (i, factor) in vector.iter().enumerate() {
        sum += u64::from(list[i]) * (*factor % WORD);
    }
    Residue::reduce(sum)
}

// The same of a list of any numbers. It is no twin of dot, since here the sum may be past 2^64, and one in two words takes longer.
pub(crate) fn wide_dot(list: &[u32], vector: &[u64], offset: u64) -> Residue
    requires { DotReady list.now vector.now }
    ensures { result.0 ≡ dot_with offset list.now vector.now }
{
    let mut sum = ProductSum::new();
    for (c, factor) in vector.iter().enumerate() {
        sum = sum.add(u64::from(list[c]) * (*factor % WORD));
    }
    sum.add(offset).residue()
}

// What takes a shift of the other factors off a sum of products with a vector: the vector's sum times the negative of the shift,
// modulo p.
pub(crate) fn offset(vector: &[u64], shift: u64) -> u64
    requires { WordVector vector.now × (shift ≤ modulus) }
    ensures { result ≡ offset_of shift vector.now }
{
    let mut sum: u64 = 0;
    for number in vector {
        sum += *number;
    }
    let negative = u64::from(Residue::modulus()) - shift;
    negative * u64::from(Residue::reduce(sum).0)
}

// A vector in 64-bit numbers, as its products take them, to a list.
pub(crate) fn widen(vector: &[u32], list: &mut [u64])
    requires { length vector.now ≤ length list.old }
    ensures { Widened vector.now list.old list.new }
{
    for (j, number) in vector.iter().enumerate() {
        list[j] = u64::from(*number);
    }
}
