// The line of an answer.
ghost use Rattle.std.specs.Prelude.{◌≡◌, ◌++◌, ◌+◌, ◌≤◌, drop, length};
ghost use Rattle.files.specs.Rules.{decimal, field, line_of};
ghost use Rattle.files.specs.Laws.Prefixes.{Leads};
ghost use Rattle.files.specs.Laws.Lines.{longest_field, Put};

use ticket::Answer;

// The ten digits that a 32-bit number has at most, and the byte after them.
const FIELD: usize = 11;

pub const LONGEST_LINE: usize = 4 * FIELD;

// The line of an answer, at the beginning of the output, and how long it is. The rest of the output is not changed. It is written digit by
// digit, since a `write!` to a buffer may fail by its contract, and then the line would not be known.
pub fn line(answer: Answer, output: &mut [u8; LONGEST_LINE]) -> usize
    ensures { (result ≡ length (line_of answer)) × (output.new ≡ line_of answer ++ drop result output.old) × Leads result output.new }
{
    let number = put_field(output, 0, answer.number, b' ');
    let place = put_field(output, number, answer.place, b' ');
    let row = put_field(output, place, answer.row, b' ');
    put_field(output, row, answer.products, b'\n')
}

// A number and the byte after it, from a place of the output on; the place after them.
fn put_field(output: &mut [u8], at: usize, number: u32, end: u8) -> usize
    requires { at + longest_field ≤ length output.old }
    ensures { Put output.old at (field number end) result output.new × (result ≤ at + longest_field) }
{
    let next = put_number(output, at, number);
    output[next] = end;
    next + 1
}

// A number in decimal, from a place of the output on; the place after it.
fn put_number(output: &mut [u8], at: usize, number: u32) -> usize
    requires { at + length (decimal number) ≤ length output.old }
    ensures { Put output.old at (decimal number) result output.new }
{
    if number < 10 {
        output[at] = b'0' + (number as u8);
        return at + 1;
    }
    let last = put_number(output, at, number / 10);
    output[last] = b'0' + ((number % 10) as u8);
    last + 1
}
