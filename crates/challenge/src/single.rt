// One row of the check by itself, for a check that proceeds row by row.
ghost use Rattle.std.specs.Prelude.{◌≡◌, ◌*◌, ◌%◌, ◌^◌, ◌≤◌, length, get_or};
ghost use Rattle.algebra.specs.Laws.Fills.{Filled};
ghost use Rattle.challenge.specs.Rules.{balanced_by, no_row, product_at, row_made};
ghost use Rattle.challenge.specs.Laws.Products.{WordVector};
ghost use Rattle.challenge.specs.Laws.Sides.{RoomFor, RowDecoded};
ghost use Rattle.challenge.specs.Laws.Single.{DecodeRowReady, LineReady, RowReady};

use crate::Case;
use crate::lists::line;
use crate::products::{WORD, product, widen};
use crate::rows::{COLUMNS, INNER, Vector};
use residue::Residue;
use ticket::{Answer, PartNumber, RECORD, Setting};

// What one row comes to: the answer of the ordinary tests, whether the two sides of the row are equal, and the product of B and the vector
// that its rows are compared by. Where no row is made, none is out of balance.
#[derive(Clone, Copy)]
pub struct RowAnswer {
    pub tested: Answer,
    pub balanced: bool,
    pub u: [u32; INNER],
}

// No row is made.
pub(crate) fn no_row(tested: Answer, u: [u32; INNER]) -> RowAnswer
    ensures { result ≡ no_row tested u }
{
    RowAnswer {
        tested,
        balanced: true,
        u,
    }
}

// A row of a ticket and a list that pass the tests, both row and vector being there.
pub(crate) fn row_of(case: Case, t: u32, row: u32, u: [u32; INNER]) -> RowAnswer
    requires { RowReady case.setting case.ticket.now case.list.now t row }
    ensures { result ≡ row_made case.entry.setting case.entry.ticket.now case.entry.list.now t row u }
{
    let columns = case.setting.columns as usize;
    let inner = case.setting.inner as usize;
    let mut x = [0; COLUMNS];
    let mut wide = [0; INNER];
    row_in(case, t, row, u, &mut x[..columns], &mut wide[..inner])
}

// The same; the lists x and wide are for the vector and for the numbers that the row takes for its product with B. These are not reduced
// first: modulo p their products come to the same.
fn row_in(
    case: Case,
    t: u32,
    row: u32,
    u: [u32; INNER],
    x: &mut [u64],
    wide: &mut [u64],
) -> RowAnswer
    requires { RowReady case.setting case.ticket.now case.list.now t row × RoomFor case.setting x.old wide.old }
    ensures { result ≡ row_made case.entry.setting case.entry.ticket.now case.entry.list.now t row u }
{
    let Case {
        setting,
        ticket,
        list,
    } = case;
    widen(line(list, x.len(), t), x);
    let made = product_at(setting, ticket, x, wide, row, u);
    let inner = wide.len();
    widen(&made[..inner], wide);
    let balanced = line_balanced(setting, ticket, x, wide, row);
    RowAnswer {
        tested: Answer::PASSED,
        balanced,
        u: made,
    }
}

// The product of B and a vector x, which is a list of one: at the first row it is made anew, by way of the list wide, at others u stays.
fn product_at(
    setting: Setting,
    ticket: &[u8],
    x: &[u64],
    wide: &mut [u64],
    row: u32,
    u: [u32; INNER],
) -> [u32; INNER]
    requires { LineReady setting ticket.now x.now wide.old row }
    ensures { result ≡ product_at setting ticket.now x.now 0 row u }
{
    if row != 0 {
        return u;
    }
    product(ticket::part(setting, ticket, PartNumber::B), x, wide);
    let mut made = u;
    narrow(wide, &mut made);
    made
}

// Whether a row is balanced, by a vector x, which is a list of one, and by what is put for its product with B, u.
fn line_balanced(setting: Setting, ticket: &[u8], x: &[u64], u: &[u64], row: u32) -> bool
    requires { LineReady setting ticket.now x.now u.now row × WordVector u.now }
    ensures { result ≡ balanced_by setting ticket.now x.now 0 (λ k. get_or u.now k 0) row }
{
    let mut a = [0; INNER];
    let mut w = [0; COLUMNS];
    let half = setting.half();
    decode_row(setting, ticket, half, row, &mut a, &mut w);
    let bias = ticket::part(setting, ticket, PartNumber::BIAS);
    let vector = Vector::new(setting, bias, x, u, setting.lift_of(half), 0);
    vector.check_row(&a, &w, row, 0).is_ok()
}

// A row of A and of the claims, decoded, to the beginnings of lists.
fn decode_row(
    setting: Setting,
    ticket: &[u8],
    half: Residue,
    row: u32,
    a: &mut [u32],
    w: &mut [u32],
)
    requires { DecodeRowReady setting ticket.now half.0 row (length a.old) (length w.old) }
    ensures { RowDecoded setting ticket.now row a.new w.new }
{
    let inner = RECORD * (setting.inner as usize);
    let columns = RECORD * (setting.columns as usize);
    let entries = line(ticket::part(setting, ticket, PartNumber::A), inner, row);
    ticket::shifted_entries(entries, Residue(setting.bound), a);
    let quotients = line(
        ticket::part(setting, ticket, PartNumber::QUOTIENTS),
        columns,
        row,
    );
    let remainders = line(
        ticket::part(setting, ticket, PartNumber::REMAINDERS),
        columns,
        row,
    );
    ticket::lifted_claims(quotients, remainders, half, setting.scale, w);
}

// Numbers in 32 bits, to the beginning of a list.
fn narrow(wide: &[u64], list: &mut [u32])
    requires { length wide.now ≤ length list.old }
    ensures { Filled 0 list.old (length wide.now) (λ k. get_or wide.now k 0 % 2 ^ 32) list.new }
{
    for (k, number) in wide.iter().enumerate() {
        list[k] = (*number % WORD) as u32;
    }
}
