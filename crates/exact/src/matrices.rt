// A matrix turned, so that its columns stand one after the other, and the products of a row with columns that do.
ghost use Rattle.std.specs.Prelude.{◌+◌, ◌*◌, ◌<◌, ◌≤◌, length};
ghost use Rattle.exact.specs.Laws.Matrices.{Turned, TurnedFurther, RowSums};

use crate::dot;

// The matrix, which is row by row, goes to the list column by column. Where the matrix or the list is too short, nothing is written.
pub fn turn(matrix: &[i16], height: u16, width: u16, list: &mut [i16])
    ensures { Turned matrix.now height width list.old list.new }
{
    let rows = usize::from(height);
    let columns = usize::from(width);
    let count = rows * columns;
    if matrix.len() < count || list.len() < count {
        return;
    }
    for row in 0..rows {
        turn_row(matrix, rows, columns, row, list);
    }
}

// One row of the matrix: a number for each column. Numbers are read one after the other and written apart, which the compiler leaves
// as it is; the other way round it gathers them into vectors, and that takes longer.
fn turn_row(matrix: &[i16], height: usize, width: usize, row: usize, list: &mut [i16])
    requires { (row < height) × (height * width ≤ length matrix.now) × (height * width ≤ length list.old) }
    ensures { TurnedFurther matrix.now height width (row * width) (row * width + width) list.old list.new }
{
    let start = row * width;
    for column in 0..width {
        list[column * height + row] = matrix[start + column];
    }
}

// The sum of the products of a row with each of the columns, which stand one after the other, as long as there are columns and sums.
pub fn row_sums(row: &[i16], columns: &[i16], sums: &mut [u32])
    ensures { RowSums row.now columns.now sums.old sums.new }
{
    let inner = row.len();
    let mut start = 0;
    for sum in sums.iter_mut() {
        if columns.len() - start < inner {
            return;
        }
        *sum = dot(row, &columns[start..start + inner]);
        start += inner;
    }
}
