// The parts of the work buffer in which errors are found.
ghost use Rattle.std.specs.Prelude.{◌≡◌, ◌≤◌, length};

use crate::locator::MAX_ERRORS;

// Room for as many errors as can be corrected. Points and values are lent, since an array of a field's symbols has no known size. A
// function that is lent one part alone asks for its size: what a part holds is lost where it is lent as `&` through the struct.
#[derive(Drop)]
pub(crate) struct Room<'a, F> {
    // For a matrix with a row for each error, and a column more.
    pub(crate) matrix: &'a mut [F],
    // For a locator polynomial, and then for the errors' values, one for each place.
    pub(crate) vector: &'a mut [F],
    // For the errors' points, one for each place.
    pub(crate) points: &'a mut [F],
    ghost matrix_fits: { length matrix.now ≡ 72 },
    ghost vector_fits: { length vector.now ≡ 9 },
    ghost points_fit: { 8 ≤ length points.now },
}

impl<'a, F> Room<'a, F> {
    pub(crate) fn new(work: &'a mut [F]) -> Room<'a, F>
        requires { length work.old ≡ 496 }
    {
        let (matrix, rest) = work.split_at_mut(MAX_ERRORS * (MAX_ERRORS + 1));
        let (vector, points) = rest.split_at_mut(MAX_ERRORS + 1);
        Room {
            matrix,
            vector,
            points,
        }
    }
}
