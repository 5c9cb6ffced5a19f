// Writing the records.
ghost use Rattle.std.specs.Prelude.{◌≡◌, ◌+◌, ◌*◌, ◌^◌, ◌<◌, ◌≤◌, length, unsigned_abs};
ghost use Rattle.residue.specs.Rules.{modulus, least_residue};
ghost use Rattle.ticket.specs.Rules.{record_bytes};
ghost use Rattle.writer.specs.Laws.Records.{words_of};
ghost use Rattle.writer.specs.Laws.Writes.{Among, Wrote};
ghost use Rattle.writer.specs.Laws.Lines.{FewReady, LineReady, LineWrote, OperandReady, OperandWrote};

use residue::{Entry, Residue};
use ticket::RECORD;

// By how much the first word of a record grows from one column to the next.
pub(crate) const COLUMN: u32 = 16_777_216;

// How many bytes a word of a record has.
const WORD: usize = RECORD / 2;

// Operands of at most so many entries are written record by record: to make several at a time does not pay.
const FEW: usize = 8;

// The records of an operand, from record start of the output on.
pub(crate) fn write_operand(
    output: &mut [u8],
    start: usize,
    kind: u8,
    height: u8,
    width: usize,
    operand: &[i32],
)
    requires { OperandReady start height width operand.now output.old }
    ensures { OperandWrote kind width start operand.now output.old output.new }
{
    if operand.len() <= FEW {
        write_few(output, start, kind, width, operand);
        return;
    }
    let mut first = 0;
    for row in 0..height {
        let end = first + width;
        write_line(output, start + first, kind, row, &operand[first..end]);
        first = end;
    }
}

// The same, record by record, of an operand of few entries.
fn write_few(output: &mut [u8], start: usize, kind: u8, width: usize, operand: &[i32])
    requires { FewReady start width operand.now output.old }
    ensures { OperandWrote kind width start operand.now output.old output.new }
{
    let mut row = 0;
    let mut column = 0;
    for (k, entry) in operand.iter().enumerate() {
        let header = ticket::word(kind, 0, row, column);
        let value = residue(Entry(*entry));
        write_record(output, start + k, header, value);
        column += 1;
        if usize::from(column) == width {
            column = 0;
            row += 1;
        }
    }
}

// The records of a row of an operand, from record first on. Both words of a record are made without a branch, so that the compiler
// makes several records at a time.
fn write_line(output: &mut [u8], first: usize, kind: u8, row: u8, entries: &[i32])
    requires { LineReady first entries.now output.old }
    ensures { LineWrote kind row first entries.now output.old output.new }
{
    let mut header = ticket::word(kind, 0, row, 0);
    for (column, entry) in entries.iter().enumerate() {
        let value = residue(Entry(*entry));
        write_record(output, first + column, header, value);
        header += COLUMN;
    }
}

// Record number of the output, by its first word and its value.
pub(crate) fn write_record(output: &mut [u8], number: usize, header: u32, value: Residue)
    requires { record_bytes * number + record_bytes ≤ length output.old }
    ensures { Wrote (λ k. words_of header value.0) (Among number 1) output.old output.new }
{
    let at = RECORD * number;
    put(&mut output[at..at + RECORD], header, value.0);
}

// The bytes of two words.
fn put(bytes: &mut [u8], header: u32, value: u32)
    requires { length bytes.old ≡ record_bytes }
    ensures { bytes.new ≡ words_of header value }
{
    bytes[..WORD].copy_from_slice(&header.to_le_bytes());
    bytes[WORD..].copy_from_slice(&value.to_le_bytes());
}

// The least residue of a small entry; in 32 bits, since the compiler then makes several at a time.
fn residue(entry: Entry) -> Residue
    requires { unsigned_abs entry.0 < 2 ^ 30 }
    ensures { result.0 ≡ least_residue modulus entry.0 }
{
    let n = entry.0;
    let least = if n < 0 {
        (n + (Residue::modulus() as i32)) as u32
    } else {
        n as u32
    };
    Residue(least)
}
