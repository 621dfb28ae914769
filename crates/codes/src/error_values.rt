// What the errors of a word are, once their places are known: values with the right power sums.
ghost use Rattle.std.specs.Prelude.{◌≡◌, ℕ, ◌<◌, ◌≤◌, map, length, take};
ghost use Rattle.codes.specs.Codewords.{Apart, power_sum};
ghost use Rattle.codes.specs.steps.Elimination.{cells, entries};
ghost use Rattle.codes.specs.steps.Matrices.{SameShape};
ghost use Rattle.codes.specs.steps.Decoding.{point, Powers, Columns, Beside, Normalized};

use crate::elimination::Matrix;
use gf::Field;

// Fills a column with the powers of a point, from the zeroth on.
fn fill_column<F: Field>(matrix: &mut Matrix<F>, column: usize, point: F)
    requires { column < matrix.old.columns }
    ensures shape { SameShape matrix.old matrix.new }
    ensures powers { Powers F.field matrix.old.rows (F.mean point) column (cells F.field F.mean matrix.old.columns matrix.new.symbols.now) }
    ensures others { Beside matrix.old.columns (cells F.field F.mean matrix.old.columns matrix.old.symbols.now) column (cells F.field F.mean matrix.old.columns matrix.new.symbols.now) }
{
    let mut power = F::one();
    for row in 0..matrix.rows() {
        matrix.put(row, column, power);
        power = point.mul(power);
    }
}

// Fills a column for each point.
fn fill_columns<F: Field>(points: &[F], matrix: &mut Matrix<F>)
    requires { length points.now ≤ matrix.old.columns }
    ensures shape { SameShape matrix.old matrix.new }
    ensures filled { Columns F.field matrix.old.rows (entries F.field F.mean points.now) (length points.now) (cells F.field F.mean matrix.old.columns matrix.new.symbols.now) }
{
    for (column, point) in points.iter().enumerate() {
        fill_column(matrix, column, *point);
    }
}

// Fills a column with symbols, as many as there are rows.
fn write_column<F: Field>(symbols: &[F], matrix: &mut Matrix<F>, column: usize)
    requires { (column < matrix.old.columns) × (length symbols.now ≡ matrix.old.rows) }
    ensures shape { SameShape matrix.old matrix.new }
    ensures written { (i : ℕ) → i < length symbols.now → cells F.field F.mean matrix.old.columns matrix.new.symbols.now i column ≡ entries F.field F.mean symbols.now i }
    ensures others { Beside matrix.old.columns (cells F.field F.mean matrix.old.columns matrix.old.symbols.now) column (cells F.field F.mean matrix.old.columns matrix.new.symbols.now) }
{
    for (row, symbol) in symbols.iter().enumerate() {
        matrix.put(row, column, *symbol);
    }
}

// Divides the entries before one by its negative. Its place is given, since the vector may go on behind it.
fn normalize<F: Field>(vector: &mut [F], last: usize)
    requires { last < length vector.old }
    ensures { Normalized F.field last (entries F.field F.mean vector.old) (entries F.field F.mean vector.new) }
{
    let factor = vector[last].inv().neg();
    for entry in vector[..last].iter_mut() {
        *entry = entry.mul(factor);
    }
}

// Writes the values whose power sums at the points are the first syndromes; the place behind them is used up.
pub(crate) fn find_values<F: Field>(
    points: &[F],
    syndromes: &[F],
    symbols: &mut [F],
    values: &mut [F],
)
    requires sizes { (length points.now ≤ 8) × ((length points.now ≤ length syndromes.now) × ((length points.now < length values.old) × (length symbols.old ≡ 72))) }
    requires apart { Apart (map F.mean points.now) }
    ensures { (i : ℕ) → i < length points.now → power_sum F.field (map F.mean (take (length points.now) values.new)) (map F.mean points.now) i ≡ entries F.field F.mean syndromes.now i }
{
    let count = points.len();
    let mut matrix = Matrix::new(symbols, count, count + 1);
    fill_columns(points, &mut matrix);
    write_column(&syndromes[..count], &mut matrix, count);
    matrix.kernel_vector(&mut values[..count + 1]);
    normalize(values, count);
}
