// Reading a ticket: the tests in order, part after part and record after record.
ghost use Rattle.std.specs.Prelude.{◌≡◌, ◌+◌, ◌*◌, ◌^◌, ◌<◌, ◌≤◌, length};
ghost use Rattle.ticket.specs.Rules.{answered, failed, reading, record_bytes, records, part, record_number, first_refusal, formed, half_range};
ghost use Rattle.residue.specs.Rules.{modulus};
ghost use Rattle.ticket.specs.Laws.Limits.{Within};
ghost use Rattle.ticket.specs.Laws.All.{all};
ghost use Rattle.ticket.specs.Laws.Forms.{entries_form, part_answer, tested_at, Holds, Ranged, range_test};
ghost use Rattle.ticket.specs.Laws.Passing.{passing, passing_at, row_passing};
ghost use Rattle.ticket.specs.Laws.Parts.{MakesTests, PartReady, ReadReady, form_bytes};

use crate::parts::{RECORD, value_at, word};
use crate::{PartNumber, Reason, Refusal, Setting};
use residue::Residue;

// Rows of at most so many records are not worth the pass without branches.
const SHORT_ROW: u8 = 2;

// What the records of a part have to be. The kind is a number, since it is that byte of a record. A value is in range where, shift
// added modulo p, it is below limit; outside is the reason for one that is not.
#[derive(Clone, Copy)]
struct Form {
    kind: u8,
    rows: u8,
    columns: u8,
    shift: u32,
    limit: u32,
    outside: Reason,
}

impl Form {
    // How many records the part has.
    fn size(self) -> usize
        ensures { result ≡ self.rows * self.columns }
    {
        usize::from(self.rows) * usize::from(self.columns)
    }
}

// The reading and range checks, tests 1 to 9 and 17 to 19.
pub fn read(setting: Setting, ticket: &[u8]) -> Result<(), Refusal>
    ensures { answered result ≡ reading setting ticket.now }
{
    let half = setting.half();
    setting.test(half)?;
    if ticket.len() != setting.length() {
        return Err(Refusal::from(Reason::Length));
    }
    read_records(setting, ticket, half)
}

// The tests of the records, part after part, where setting and length pass theirs. A part starts where the one before it ends.
fn read_records(setting: Setting, ticket: &[u8], half: Residue) -> Result<(), Refusal>
    requires { ReadReady setting ticket.now × (half.0 ≡ half_range setting) }
    ensures { answered result ≡ first_refusal 0 (records setting) (record_number setting ticket.now) }
{
    let mut start = 0;
    for which in 0..PartNumber::COUNT {
        let form = form_of(setting, PartNumber(which), half);
        read_part(form, ticket, start)?;
        start += form.size();
    }
    Ok(())
}

// The tests of a part, the first record of which is record start; one without columns has no records. They are made without a
// branch first; one by one, for the first that fails, only where some record fails.
fn read_part(form: Form, ticket: &[u8], start: usize) -> Result<(), Refusal>
    requires { PartReady form start ticket.now }
    ensures { answered result ≡ part_answer form start (form_bytes form start ticket.now) }
{
    if form.columns == 0 {
        return Ok(());
    }
    let first = RECORD * start;
    let records = &ticket[first..first + RECORD * form.size()];
    if (SHORT_ROW < form.columns) && passes(records, form) {
        return Ok(());
    }
    first_refusal(records, form, start as u32)
}

// What the records of a part have to be; half of the quotients' range is worked out once for all parts.
fn form_of(setting: Setting, which: PartNumber, half: Residue) -> Form
    requires { Within setting × (which.0 < 5) × (half.0 ≡ half_range setting) }
    ensures { MakesTests result (part setting which.0) }
{
    let rows = setting.rows as u8;
    let inner = setting.inner as u8;
    let columns = setting.columns as u8;
    match which.0 {
        0 => entries_form(1, rows, inner, setting.bound, Reason::Entry),
        1 => entries_form(2, inner, columns, setting.bound, Reason::Entry),
        2 => {
            let width = setting.bias_columns() as u8;
            entries_form(5, rows, width, setting.largest_bias(), Reason::BiasEntry)
        }
        3 => Form {
            kind: 3,
            rows,
            columns,
            shift: half.0,
            limit: 2 * half.0,
            outside: Reason::Quotient,
        },
        _ => Form {
            kind: 4,
            rows,
            columns,
            shift: 0,
            limit: setting.scale,
            outside: Reason::Remainder,
        },
    }
}

// What the records of a matrix of entries have to be: its values stand for numbers from -bound to bound.
fn entries_form(kind: u8, rows: u8, columns: u8, bound: u32, outside: Reason) -> Form
    requires { 2 * bound < modulus }
    ensures { result ≡ entries_form kind rows columns bound outside }
{
    Form {
        kind,
        rows,
        columns,
        shift: bound,
        limit: 2 * bound + 1,
        outside,
    }
}

// Whether all records of a part pass: row after row, up to the first that does not.
fn passes(records: &[u8], form: Form) -> bool
    requires { Holds records.now form }
    ensures { result ≡ all (form.rows * form.columns) (passing records.now form) }
{
    let columns = usize::from(form.columns);
    for row in 0..form.rows {
        if !row_passes(records, form, usize::from(row) * columns, row) {
            return false;
        }
    }
    true
}

// Whether the records of a row pass, the first of which is record start.
fn row_passes(records: &[u8], form: Form, start: usize, row: u8) -> bool
    requires { (record_bytes * (start + form.columns) ≤ length records.now) × Ranged form }
    ensures { result ≡ all form.columns (row_passing records.now form start row) }
{
    let mut ok = true;
    for column in 0..form.columns {
        ok &= record_passes(records, form, start + usize::from(column), row, column);
    }
    ok
}

// Whether record i passes, which stands in the given row and column. The tests have no branch, so that the compiler makes those of
// several records at a time.
fn record_passes(records: &[u8], form: Form, i: usize, row: u8, column: u8) -> bool
    requires { (record_bytes * i + record_bytes ≤ length records.now) × Ranged form }
    ensures { result ≡ passing_at records.now form i row column }
{
    let value = value_at(records, i);
    formed(records, i, form.kind, row, column) & value.is_least() & in_range(value, form)
}

// Whether a value below p is in range: it is out of range where it is one of the size numbers from low on.
fn in_range(value: Residue, form: Form) -> bool
    requires { Ranged form }
    ensures { value.0 < modulus → result ≡ range_test form value.0 }
{
    let low = form.limit - form.shift;
    let size = Residue::modulus() - form.limit;
    size <= value.0.wrapping_sub(low)
}

// The tests of a part one by one, the first record of which is record start of the ticket.
fn first_refusal(records: &[u8], form: Form, start: u32) -> Result<(), Refusal>
    requires { Holds records.now form × (start < 2 ^ 16) }
    ensures { answered result ≡ part_answer form start records.now }
{
    let Form { rows, columns, .. } = form;
    for row in 0..rows {
        let first = u32::from(row) * u32::from(columns);
        for column in 0..columns {
            let i = first + u32::from(column);
            if let Err(reason) = test_record(records, form, i, row, column) {
                return Err(Refusal {
                    reason,
                    place: start + i,
                });
            }
        }
    }
    Ok(())
}

// The tests of record i, in order, which stands in the given row and column.
fn test_record(records: &[u8], form: Form, i: u32, row: u8, column: u8) -> Result<(), Reason>
    requires { (record_bytes * i + record_bytes ≤ length records.now) × Ranged form }
    ensures { failed result ≡ tested_at records.now form i row column }
{
    if !formed(records, i as usize, form.kind, row, column) {
        return Err(Reason::Form);
    }
    let value = value_at(records, i as usize);
    if !value.is_least() {
        return Err(Reason::Residue);
    }
    if !in_range(value, form) {
        return Err(form.outside);
    }
    Ok(())
}

// Whether record i has the kind, a zero byte, the row and the column.
fn formed(records: &[u8], i: usize, kind: u8, row: u8, column: u8) -> bool
    requires { record_bytes * i + record_bytes ≤ length records.now }
    ensures { result ≡ formed records.now i kind row column }
{
    let at = RECORD * i;
    let record = &records[at..at + RECORD];
    word(record[0], record[1], record[2], record[3]) == word(kind, 0, row, column)
}
