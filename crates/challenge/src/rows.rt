// Test 12: every row, for every vector.
ghost use Rattle.std.specs.Prelude.{◌≡◌, ◌+◌, ◌*◌, ◌≤◌, length};
ghost use Rattle.residue.specs.Rules.{modulus};
ghost use Rattle.ticket.specs.Rules.{answer, bias_columns};
ghost use Rattle.ticket.specs.Laws.Runs.{step_answer, steps_answer};
ghost use Rattle.challenge.specs.Rules.{challenge_check, verdict};
ghost use Rattle.challenge.specs.Laws.Checks.{DecodeReady};
ghost use Rattle.challenge.specs.Laws.Products.{rows_times, RecordsReady, WordVector};
ghost use Rattle.challenge.specs.Laws.Rows.{outcome, row_answer, row_steps, VectorMade, VectorRowsReady, SidesReady};
ghost use Rattle.challenge.specs.Laws.Sides.{DecodedTo, RoomFor};
ghost use Rattle.challenge.specs.Laws.Vectors.{vector_steps, ListReady, VectorReady};

use crate::Case;
use crate::lists::{line, read_list};
use crate::products::{dot, dot_records, offset, product, wide_dot, widen};
use residue::Residue;
use ticket::{Answer, PartNumber, Reason, Setting};

// The most numbers of a vector, and of its product with B.
pub(crate) const COLUMNS: usize = Setting::MOST_COLUMNS as usize;

pub(crate) const INNER: usize = Setting::MOST_INNER as usize;

// A row whose two sides differ, for a vector, and the products made so far, with those of the row.
#[derive(Clone, Copy)]
pub(crate) struct Caught {
    vector: u32,
    row: u32,
    products: u32,
}

impl From<Caught> for Answer {
    ghost from_gives = { λ caught result. result ≡ answer 12 caught.vector caught.row caught.products };

    fn from(caught: Caught) -> Answer {
        Answer {
            number: Reason::Caught.number(),
            place: caught.vector,
            row: caught.row,
            products: caught.products,
        }
    }
}

// What A and the claims are decoded to, row after row, and what the claims are lifted by.
#[derive(Clone, Copy)]
struct Decoded<'a> {
    a: &'a [u32],
    w: &'a [u32],
    lift: u64,
}

// What all rows of a vector have in common: its number t, the vector x, its product u with B, and the bias. Rows of the bias, read as
// records, are multiplied with z: the vector, or no numbers where there is no bias. The shift of the claims is taken off by left, that of
// the entries by right.
#[derive(Clone, Copy)]
pub(crate) struct Vector<'a> {
    t: u32,
    x: &'a [u64],
    u: &'a [u64],
    bias: &'a [u8],
    z: &'a [u64],
    left: u64,
    right: u64,
}

impl<'a> Vector<'a> {
    // A vector and what its rows take for its product with B, the claims being lifted by lift.
    pub(crate) fn new(
        setting: Setting,
        bias: &'a [u8],
        x: &'a [u64],
        u: &'a [u64],
        lift: u64,
        t: u32,
    ) -> Vector<'a>
        requires { WordVector x.now × WordVector u.now × (bias_columns setting ≤ length x.now) × (lift ≤ modulus) × (setting.bound ≤ modulus) }
        ensures { VectorMade setting bias.now x.now u.now lift t result }
    {
        let width = setting.bias_columns() as usize;
        Vector {
            t,
            x,
            u,
            bias,
            z: &x[..width],
            left: offset(x, lift),
            right: offset(u, u64::from(setting.bound)),
        }
    }

    // One row, of A in a and of the claims in w: caught, where the two sides differ. The row of the bias times z is added to the row of A
    // times u. The products made so far are handed in, and come back with those of this row.
    pub(crate) fn check_row(
        self,
        a: &[u32],
        w: &[u32],
        row: u32,
        products: u32,
    ) -> Result<u32, Caught>
        requires { SidesReady a.now w.now self row products }
        ensures { outcome result ≡ row_answer a.now w.now self.entry row products }
    {
        let claims = wide_dot(w, self.x, self.left);
        let added = row_bias(self.bias, row, self.z);
        let product = dot(a, self.u, self.right + added);
        let made = products + (self.x.len() as u32) + (self.u.len() as u32) + (self.z.len() as u32);
        if claims != product {
            return Err(Caught {
                vector: self.t,
                row,
                products: made,
            });
        }
        Ok(made)
    }
}

// The check of a ticket that passes its own tests: those of the list, then all rows for all vectors of it. A and the claims are decoded
// once for all vectors, A to the beginning of the room and the claims to what is left of it.
pub(crate) fn check_decoded(case: Case, room: &mut [u32]) -> Answer
    requires { DecodeReady case.setting case.ticket.now (length room.old) }
    ensures { result ≡ challenge_check case.entry.setting case.entry.ticket.now case.entry.list.now }
{
    let Case {
        setting,
        ticket,
        list,
    } = case;
    if let Err(refusal) = read_list(setting, list) {
        return Answer::from(refusal);
    }
    let entries = ticket::part(setting, ticket, PartNumber::A);
    let quotients = ticket::part(setting, ticket, PartNumber::QUOTIENTS);
    let remainders = ticket::part(setting, ticket, PartNumber::REMAINDERS);
    let half = setting.half();
    let size = (setting.rows * setting.inner) as usize;
    ticket::shifted_entries(entries, Residue(setting.bound), &mut room[..size]);
    ticket::lifted_claims(
        quotients,
        remainders,
        half,
        setting.scale,
        &mut room[size..],
    );
    let columns = setting.columns as usize;
    let inner = setting.inner as usize;
    let mut x = [0; COLUMNS];
    let mut u = [0; INNER];
    let decoded = Decoded {
        a: &room[0..size],
        w: &room[size..],
        lift: setting.lift_of(half),
    };
    match check_vectors(case, decoded, &mut x[..columns], &mut u[..inner]) {
        Ok(products) => Answer {
            products,
            ..Answer::PASSED
        },
        Err(caught) => Answer::from(caught),
    }
}

// All rows for all vectors, one after the other, up to the first row that is caught; the products of all of them. The lists x and u are for
// a vector and its product with B.
fn check_vectors(case: Case, decoded: Decoded, x: &mut [u64], u: &mut [u64]) -> Result<u32, Caught>
    requires { ListReady case.setting case.ticket.now case.list.now
        × DecodedTo case.setting case.ticket.now decoded.a.now decoded.w.now decoded.lift × RoomFor case.setting x.old u.old }
    ensures { outcome result ≡ verdict case.entry.setting case.entry.ticket.now case.entry.list.now }
{
    let mut products = 0;
    for t in 0..case.setting.vectors {
        products = check_vector(case, decoded, x, u, t, products)?;
    }
    Ok(products)
}

// All rows for vector number t of the list, from the products made before it. B is read as a part: the matrix-vector product gets the
// slice of the ticket that starts where B does.
fn check_vector(
    case: Case,
    decoded: Decoded,
    x: &mut [u64],
    u: &mut [u64],
    t: u32,
    products: u32,
) -> Result<u32, Caught>
    requires { VectorReady case.setting case.ticket.now case.list.now t products
        × DecodedTo case.setting case.ticket.now decoded.a.now decoded.w.now decoded.lift × RoomFor case.setting x.old u.old }
    ensures { outcome result ≡ step_answer (vector_steps case.entry.setting case.entry.ticket.now case.entry.list.now) t }
{
    let Case {
        setting,
        ticket,
        list,
    } = case;
    widen(line(list, x.len(), t), x);
    product(ticket::part(setting, ticket, PartNumber::B), x, u);
    let bias = ticket::part(setting, ticket, PartNumber::BIAS);
    let vector = Vector::new(setting, bias, x, u, decoded.lift, t);
    let made = products + setting.inner * setting.columns;
    check_rows(setting, decoded, vector, made)
}

// All rows for one vector, from the products made before them.
fn check_rows(
    setting: Setting,
    decoded: Decoded,
    vector: Vector,
    products: u32,
) -> Result<u32, Caught>
    requires { VectorRowsReady setting decoded.a.now decoded.w.now vector products }
    ensures { outcome result ≡ steps_answer (row_steps setting decoded.entry.a.now decoded.entry.w.now vector.entry products) }
{
    let mut made = products;
    for row in 0..setting.rows {
        let a = line(decoded.a, vector.u.len(), row);
        let w = line(decoded.w, vector.x.len(), row);
        made = vector.check_row(a, w, row, made)?;
    }
    Ok(made)
}

// Row number k of the bias times a vector, modulo p; 0 where there is no bias.
fn row_bias(bias: &[u8], k: u32, vector: &[u64]) -> u64
    requires { RecordsReady bias.now (k * length vector.now) vector.now }
    ensures { result ≡ rows_times bias.now vector.now k }
{
    if vector.is_empty() {
        return 0;
    }
    let start = (k as usize) * vector.len();
    u64::from(dot_records(bias, start, vector).0)
}
