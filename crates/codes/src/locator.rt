// Where the errors of a word can be: a locator polynomial from the syndromes, and its roots.
ghost use Rattle.std.specs.Prelude.{◌≡◌, ℕ, ◌+◌, ◌-◌, ◌*◌, ◌/◌, ◌<◌, ◌≤◌, map, length, take, ◌≢◌};
ghost use Rattle.arrayvec.specs.ArrayVec.{array_vec_len};
ghost use Rattle.codes.specs.Polynomials.{zeros};
ghost use Rattle.codes.specs.steps.Elimination.{cells, entries, Others};
ghost use Rattle.codes.specs.steps.Matrices.{SameShape};
ghost use Rattle.codes.specs.steps.Decoding.{point, terms_of, total, Locator, Suspects, Located, Recurring};

use crate::code::MAX_CHECKS;
use crate::elimination::Matrix;
use crate::room::Room;
use arrayvec::ArrayVec;
use gf::Field;

// How many errors can be corrected at most.
pub(crate) const MAX_ERRORS: usize = MAX_CHECKS / 2;

// Fills a row with the syndromes from its number on, the latest first.
fn fill_row<F: Field>(syndromes: &[F], matrix: &mut Matrix<F>, row: usize)
    requires { (row < matrix.old.rows) × ((matrix.old.rows * 2 ≤ length syndromes.now) × (matrix.old.columns ≡ matrix.old.rows + 1)) }
    ensures shape { SameShape matrix.old matrix.new }
    ensures filled { (j : ℕ) → j < matrix.old.rows + 1 → cells F.field F.mean (matrix.old.rows + 1) matrix.new.symbols.now row j ≡ entries F.field F.mean syndromes.now (row + (matrix.old.rows - j)) }
    ensures others { Others (matrix.old.rows + 1) (cells F.field F.mean (matrix.old.rows + 1) matrix.old.symbols.now) row (cells F.field F.mean (matrix.old.rows + 1) matrix.new.symbols.now) }
{
    let degree = matrix.rows();
    for (column, syndrome) in syndromes[row..row + degree + 1].iter().rev().enumerate() {
        matrix.put(row, column, *syndrome);
    }
}

// Fills all rows: the equations that a locator solves.
fn fill_rows<F: Field>(syndromes: &[F], matrix: &mut Matrix<F>)
    requires { (matrix.old.rows * 2 ≤ length syndromes.now) × (matrix.old.columns ≡ matrix.old.rows + 1) }
    ensures shape { SameShape matrix.old matrix.new }
    ensures filled { Recurring F.field matrix.old.rows (entries F.field F.mean syndromes.now) matrix.old.rows (cells F.field F.mean (matrix.old.rows + 1) matrix.new.symbols.now) }
{
    for row in 0..matrix.rows() {
        fill_row(syndromes, matrix, row);
    }
}

// Writes a locator polynomial: one that is not zero, and by which the syndromes recur.
fn find_locator<F: Field>(syndromes: &[F], symbols: &mut [F], locator: &mut [F])
    requires sizes { (length syndromes.now ≤ 16) × (length symbols.old ≡ 72) }
    requires long { length locator.old ≡ length syndromes.now / 2 + 1 }
    ensures { Locator F.field (length syndromes.now / 2) (entries F.field F.mean syndromes.now) (map F.mean locator.new) }
{
    let degree = locator.len() - 1;
    let mut matrix = Matrix::new(symbols, degree, degree + 1);
    fill_rows(syndromes, &mut matrix);
    matrix.kernel_vector(locator);
}

// The sum of the terms of a polynomial, which then go on to the next power of the root. The powers are counted from the front: of what a
// loop over `iter_mut().rev()` has written no proof knows.
fn next_value<F: Field>(terms: &mut [F]) -> F
    requires { (0 < length terms.old) × (length terms.old ≤ 16) }
    ensures value { F.mean result ≡ total F.field (map F.mean terms.old) }
    ensures next { map F.mean terms.new ≡ terms_of F.field F.field.root (map F.mean terms.old) }
{
    let mut value = F::zero();
    let last = terms.len() - 1;
    for (k, term) in terms.iter_mut().enumerate() {
        value = value.add(*term);
        *term = term.times_root_power(last - k);
    }
    value
}

// Finds the places whose points are roots of the polynomial, from the last place up, and writes their points. The terms of the
// polynomial are used up.
fn find_places<F: Field>(
    symbols: usize,
    terms: &mut [F],
    points: &mut [F],
) -> ArrayVec<usize, MAX_ERRORS>
    requires sizes { (symbols ≤ F.field.reach) × ((0 < length terms.old) × ((length terms.old ≤ 9) × (length terms.old ≤ length points.old + 1))) }
    requires some { map F.mean terms.old ≢ zeros F.field (length terms.old) }
    ensures places { Suspects F.field (map F.mean terms.old) symbols symbols result.items }
    ensures points { map F.mean (take (array_vec_len result) points.new) ≡ map (point F.field symbols) result.items }
    ensures few { array_vec_len result < length terms.old }
{
    let mut places = ArrayVec::new();
    let mut point = F::one();
    for place in (0..symbols).rev() {
        if next_value(terms).same(F::zero()) {
            points[places.len()] = point;
            places.push(place);
        }
        point = point.times_root_power(1);
    }
    places
}

// Finds the places of a word of so many symbols where alone there can be errors, and writes their points. The number of symbols is
// within the reach: a type for it would be of one field, and no plainer than the clause.
pub(crate) fn locate<F: Field>(
    symbols: usize,
    syndromes: &[F],
    room: &mut Room<F>,
) -> ArrayVec<usize, MAX_ERRORS>
    requires { (symbols ≤ F.field.reach) × (length syndromes.now ≤ 16) }
    ensures places { Located F.field (length syndromes.now / 2) symbols (entries F.field F.mean syndromes.now) result.items }
    ensures points { map F.mean (take (array_vec_len result) room.new.points.now) ≡ map (point F.field symbols) result.items }
    ensures few { array_vec_len result ≤ length syndromes.now / 2 }
{
    let degree = syndromes.len() / 2;
    let locator = &mut room.vector[..degree + 1];
    find_locator(syndromes, room.matrix, locator);
    find_places(symbols, locator, room.points)
}
