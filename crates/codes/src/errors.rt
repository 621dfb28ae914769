// The errors of a word: found from its syndromes, and taken off.
ghost use Rattle.std.specs.Prelude.{◌≡◌, ℕ, ◌<◌, ◌≤◌, map, length, take};
ghost use Rattle.gf.specs.Theory.{pow};
ghost use Rattle.arrayvec.specs.ArrayVec.{array_vec_len};
ghost use Rattle.codes.specs.Codewords.{Apart, power_sum, Outcome};
ghost use Rattle.codes.specs.steps.Syndromes.{Syndromes};
ghost use Rattle.codes.specs.steps.Elimination.{entries};
ghost use Rattle.codes.specs.steps.Decoding.{point, Among, Found, Rest, CorrectedPlaces};

use crate::error_values::find_values;
use crate::locator::{MAX_ERRORS, locate};
use crate::room::Room;
use crate::syndromes::are_zero;
use arrayvec::ArrayVec;
use gf::{Field, Refusal};

// Takes an error off the syndromes.
fn take_off<F: Field>(syndromes: &mut [F], point: F, value: F)
    ensures { (i : ℕ) → i < length syndromes.old → entries F.field F.mean syndromes.new i ≡ F.field.add (entries F.field F.mean syndromes.old i) (F.field.neg (F.field.mul (F.mean value) (pow F.field (F.mean point) i))) }
{
    let mut term = value;
    for syndrome in syndromes.iter_mut() {
        *syndrome = syndrome.add(term.neg());
        term = term.mul(point);
    }
}

// Takes all errors off the syndromes.
fn take_all_off<F: Field>(syndromes: &mut [F], points: &[F], values: &[F])
    requires { length values.now ≡ length points.now }
    ensures { Rest F.field (length syndromes.old) (map F.mean values.now) (map F.mean points.now) (entries F.field F.mean syndromes.old) (entries F.field F.mean syndromes.new) }
{
    for (point, value) in points.iter().zip(values) {
        take_off(syndromes, *point, *value);
    }
}

// Writes the values that errors at the points have if they account for the first syndromes, and takes those errors off all syndromes. It
// is lent the parts of a `Room`, since what a part holds is lost where it is lent as `&` through the struct.
fn account_for<F: Field>(points: &[F], syndromes: &mut [F], matrix: &mut [F], values: &mut [F])
    requires sizes { (length points.now ≤ 8) × ((length points.now ≤ length syndromes.old) × ((length points.now < length values.old) × (length matrix.old ≡ 72))) }
    requires apart { Apart (map F.mean points.now) }
    ensures solved { (i : ℕ) → i < length points.now → power_sum F.field (map F.mean (take (length points.now) values.new)) (map F.mean points.now) i ≡ entries F.field F.mean syndromes.old i }
    ensures rest { Rest F.field (length syndromes.old) (map F.mean (take (length points.now) values.new)) (map F.mean points.now) (entries F.field F.mean syndromes.old) (entries F.field F.mean syndromes.new) }
{
    find_values(points, syndromes, matrix, values);
    take_all_off(syndromes, points, &values[..points.len()]);
}

// Takes the errors off the word, and returns how many are not zero. A symbol whose error is zero is not written.
fn correct_places<F: Field>(word: &mut [F], places: &[usize], values: &[F]) -> usize
    requires sizes { length values.now ≡ length places.now }
    requires places { (Apart places.now) × (((k : ℕ) → Among k places.now → k < length word.old)) }
    ensures { CorrectedPlaces F.field F.mean places.now (map F.mean values.now) word.old word.new result }
{
    let mut changed = 0;
    for (place, value) in places.iter().zip(values) {
        if !value.same(F::zero()) {
            let symbol = &mut word[*place];
            *symbol = symbol.add(value.neg());
            changed += 1;
        }
    }
    changed
}

// Finds the only errors that can account for the syndromes, and takes them off those. Returns their places, and leaves their values in
// the front of the room's vector.
fn find_errors<F: Field>(
    symbols: usize,
    syndromes: &mut [F],
    room: &mut Room<F>,
) -> ArrayVec<usize, MAX_ERRORS>
    requires { (symbols ≤ F.field.reach) × (length syndromes.old ≤ 16) }
    ensures { Found F.field (length syndromes.old) symbols (entries F.field F.mean syndromes.old) (entries F.field F.mean syndromes.new) result.items (map F.mean (take (array_vec_len result) room.new.vector.now)) }
{
    let places = locate(symbols, syndromes, room);
    let points = &room.points[..places.len()];
    account_for(points, syndromes, room.matrix, room.vector);
    places
}

// Corrects a word by its syndromes. Nothing is written to the word before the errors account for all syndromes.
pub(crate) fn correct_errors<F: Field>(
    word: &mut [F],
    syndromes: &mut [F],
    work: &mut [F],
) -> Result<usize, Refusal>
    requires sizes { (length syndromes.old ≤ 16) × ((length syndromes.old ≤ length word.old) × ((length word.old ≤ F.field.reach) × (length work.old ≡ 496))) }
    requires syndromes { Syndromes F.field (length syndromes.old) (map F.mean word.old) (entries F.field F.mean syndromes.old) }
    ensures { Outcome F.field F.mean (length syndromes.old) word.old word.new result }
{
    let mut room = Room::new(work);
    let places = find_errors(word.len(), syndromes, &mut room);
    let Room { vector, .. } = room;
    if !are_zero(syndromes) {
        return Err(Refusal::BeyondRepair);
    }
    Ok(correct_places(word, places.as_slice(), &vector[..places.len()]))
}
