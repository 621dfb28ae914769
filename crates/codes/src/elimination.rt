// Elimination over every field: a vector that is not zero, and that a matrix with more columns than rows sends to zero.
ghost use Rattle.std.specs.Prelude.{◌≡◌, ℕ, ◌+◌, ◌*◌, ◌<◌, ◌≤◌, length, MatchOption, ◌≢◌};
ghost use Rattle.codes.specs.steps.Elimination.{cells, entries, sent, Put, Pivot, Free, Swapped, Others, Cleared, Below, Steps, Reduced, Single, Kernel};

use crate::division::clear;
use gf::Field;

// A matrix with more columns than rows on lent symbols, row after row; there may be more of them. Each method asks that its row and
// column are there, since a type for a row's number would have to name its matrix; each that writes, but the last, which uses the matrix
// up, says that the shape stays, since no field of a struct is constant.
#[derive(Drop)]
pub(crate) struct Matrix<'a, F> {
    symbols: &'a mut [F],
    rows: usize,
    columns: usize,
    ghost within: { rows * columns ≤ length symbols.now },
    ghost wide: { rows < columns },
}

// The factor by which `b` takes `a` to zero.
fn clearing<F: Field>(a: F, b: F) -> F
    requires { F.mean b ≢ F.field.zero }
    ensures { F.field.add (F.mean a) (F.field.mul (F.mean result) (F.mean b)) ≡ F.field.zero }
{
    a.mul(b.inv()).neg()
}

// Writes one at `free`, and zero elsewhere.
fn single<F: Field>(vector: &mut [F], free: usize)
    requires { free < length vector.old }
    ensures { Single F.field free (entries F.field F.mean vector.new) }
{
    clear(vector);
    vector[free] = F::one();
}

impl<'a, F: Field> Matrix<'a, F> {
    ghost use Rattle.codes.specs.steps.Matrices.{SameShape};

    // A matrix on these symbols, whatever they hold.
    pub(crate) fn new(symbols: &'a mut [F], rows: usize, columns: usize) -> Matrix<'a, F>
        requires { (rows * columns ≤ length symbols.old) × (rows < columns) }
        ensures { (result.rows ≡ rows) × (result.columns ≡ columns) }
    {
        Matrix {
            symbols,
            rows,
            columns,
        }
    }

    pub(crate) fn rows(&self) -> usize
        ensures { result ≡ self.now.rows }
    {
        self.rows
    }

    // Where the entry at a row and a column stands among the symbols.
    fn place(&self, row: usize, column: usize) -> usize
        requires { (row < self.now.rows) × (column < self.now.columns) }
        ensures value { result ≡ row * self.now.columns + column }
        ensures within { result < length self.now.symbols.now }
    {
        row * self.columns + column
    }

    // The entry at a row and a column.
    fn at(&self, row: usize, column: usize) -> F
        requires { (row < self.now.rows) × (column < self.now.columns) }
        ensures { F.mean result ≡ cells F.field F.mean self.now.columns self.now.symbols.now row column }
    {
        self.symbols[self.place(row, column)]
    }

    // Writes the entry at a row and a column.
    pub(crate) fn put(&mut self, row: usize, column: usize, value: F)
        requires { (row < self.old.rows) × (column < self.old.columns) }
        ensures shape { SameShape self.old self.new }
        ensures written { Put self.old.columns (cells F.field F.mean self.old.columns self.old.symbols.now) row column (F.mean value) (cells F.field F.mean self.old.columns self.new.symbols.now) }
    {
        let place = self.place(row, column);
        self.symbols[place] = value;
    }

    // Whether the entry at a row and a column is zero.
    fn is_zero(&self, row: usize, column: usize) -> bool
        requires { (row < self.now.rows) × (column < self.now.columns) }
        ensures { result ≡ F.field.equal (cells F.field F.mean self.now.columns self.now.symbols.now row column) F.field.zero }
    {
        self.at(row, column).same(F::zero())
    }

    // The first row that is not zero in a column, of the rows from that number on.
    fn find_pivot(&self, column: usize) -> Option<usize>
        requires { column < self.now.columns }
        ensures { MatchOption result (Free F.field self.now.rows column (cells F.field F.mean self.now.columns self.now.symbols.now)) (λ p. Pivot F.field self.now.rows column (cells F.field F.mean self.now.columns self.now.symbols.now) p) }
    {
        let mut rows = column..self.rows;
        loop {
            let row = rows.next()?;
            if !self.is_zero(row, column) {
                break Some(row);
            }
        }
    }

    // Exchanges two rows, column by column. `swap_with_slice` would ask for the slice in two parts, and for a case where both rows are one.
    fn swap_rows(&mut self, first: usize, second: usize)
        requires { (first < self.old.rows) × (second < self.old.rows) }
        ensures shape { SameShape self.old self.new }
        ensures swapped { Swapped self.old.columns self.old.columns (cells F.field F.mean self.old.columns self.old.symbols.now) first second (cells F.field F.mean self.old.columns self.new.symbols.now) }
    {
        for column in 0..self.columns {
            let upper = self.place(first, column);
            let lower = self.place(second, column);
            self.symbols.swap(upper, lower);
        }
    }

    // Adds a multiple of row `pivot` to `row`, from column `pivot` on, so that `row` is zero in that column. The columns are counted: of two
    // parts of the slice, one would be gone through and the other still be read by the column.
    fn clear_row(&mut self, pivot: usize, row: usize)
        requires within { (pivot < self.old.rows) × ((row < self.old.rows) × (pivot < self.old.columns)) }
        requires other { row ≢ pivot }
        requires some { cells F.field F.mean self.old.columns self.old.symbols.now pivot pivot ≢ F.field.zero }
        ensures shape { SameShape self.old self.new }
        ensures cleared { Cleared F.field self.old.columns pivot (cells F.field F.mean self.old.columns self.old.symbols.now) row (cells F.field F.mean self.old.columns self.new.symbols.now) }
        ensures others { Others self.old.columns (cells F.field F.mean self.old.columns self.old.symbols.now) row (cells F.field F.mean self.old.columns self.new.symbols.now) }
    {
        let factor = clearing(self.at(row, pivot), self.at(pivot, pivot));
        for column in pivot..self.columns {
            let above = self.at(pivot, column);
            let sum = self.at(row, column).add(factor.mul(above));
            self.put(row, column, sum);
        }
    }

    // Clears column `pivot` in the rows below row `pivot`.
    fn clear_below(&mut self, pivot: usize)
        requires within { (pivot < self.old.rows) × (pivot < self.old.columns) }
        requires some { cells F.field F.mean self.old.columns self.old.symbols.now pivot pivot ≢ F.field.zero }
        ensures shape { SameShape self.old self.new }
        ensures below { Below F.field self.old.columns self.old.rows pivot (cells F.field F.mean self.old.columns self.old.symbols.now) (cells F.field F.mean self.old.columns self.new.symbols.now) }
    {
        for row in pivot + 1..self.rows {
            self.clear_row(pivot, row);
        }
    }

    // Brings the rows into steps, and returns the first column that has no pivot.
    fn reduce(&mut self) -> usize
        ensures shape { SameShape self.old self.new }
        ensures reduced { Reduced F.field self.old.rows self.old.columns (cells F.field F.mean self.old.columns self.old.symbols.now) (cells F.field F.mean self.old.columns self.new.symbols.now) result }
    {
        for column in 0..self.rows {
            let Some(pivot) = self.find_pivot(column) else {
                return column;
            };
            self.swap_rows(column, pivot);
            self.clear_below(column);
        }
        self.rows
    }

    // What a row sends `vector` to, which is zero before place `from` and from place `to` on.
    fn dot(&self, row: usize, from: usize, to: usize, vector: &[F]) -> F
        requires within { (row < self.now.rows) × ((self.now.columns ≤ length vector.now) × ((from ≤ to) × (to ≤ self.now.columns))) }
        requires front { (j : ℕ) → j < from → entries F.field F.mean vector.now j ≡ F.field.zero }
        requires back { (j : ℕ) → to ≤ j → entries F.field F.mean vector.now j ≡ F.field.zero }
        ensures { F.mean result ≡ sent F.field self.now.columns (cells F.field F.mean self.now.columns self.now.symbols.now) row (entries F.field F.mean vector.now) }
    {
        let start = row * self.columns;
        let entries = &self.symbols[start + from..start + to];
        let mut sum = F::zero();
        for (entry, value) in entries.iter().zip(&vector[from..to]) {
            sum = sum.add(entry.mul(*value));
        }
        sum
    }

    // Finds what the rows, in steps up to column `free`, send to zero, and that is one at `free`.
    fn substitute(&self, free: usize, vector: &mut [F])
        requires within { (free ≤ self.now.rows) × (self.now.columns ≤ length vector.old) }
        requires shape { (Steps F.field self.now.rows free (cells F.field F.mean self.now.columns self.now.symbols.now)) × (Free F.field self.now.rows free (cells F.field F.mean self.now.columns self.now.symbols.now)) }
        ensures { Kernel F.field self.now.rows self.now.columns (cells F.field F.mean self.now.columns self.now.symbols.now) (entries F.field F.mean vector.new) }
    {
        single(vector, free);
        for row in (0..free).rev() {
            let rest = self.dot(row, row + 1, free + 1, vector);
            vector[row] = clearing(rest, self.at(row, row));
        }
    }

    // Writes to `vector` what is not zero, and what each row sends to zero. The matrix is used up. It goes into a variable of its own, of
    // which the compiler keeps the fields in registers: behind a reference it reads them again after each entry that is written. It is
    // taken apart for that, since no parameter that holds a reference can be lent as `&mut`.
    pub(crate) fn kernel_vector(self, vector: &mut [F])
        requires { length vector.old ≡ self.columns }
        ensures { Kernel F.field self.entry.rows self.entry.columns (cells F.field F.mean self.entry.columns self.entry.symbols.now) (entries F.field F.mean vector.new) }
    {
        let Matrix {
            symbols,
            rows,
            columns,
        } = self;
        let mut matrix = Matrix {
            symbols,
            rows,
            columns,
        };
        let free = matrix.reduce();
        matrix.substitute(free, vector);
    }
}
