// The planes of the cases that the programs `vectors`, `vectors_master`, `vectors_smooth` and `vectors_text` compare on: the coder's planes of pictures, kept and
// cut too, and planes of any values. It is proved to be safe and to end, and nothing more.
#![tactic(auto)]

use cases::inputs::{Case, fill_coverings, fill_picture, fill_plane};
use cases::safe::{first, first_mut, times};

// The plane and the coverings of a picture, by the coder.
fn of_picture(k: Case, plane: &mut [i64], coverings: &mut [u8]) {
    let mut samples = [0u16; 1024];
    let mut scratch = [0i64; 1024];
    fill_picture(k, &mut samples);
    let _ = coder::decompose(
        k.height,
        k.width,
        k.levels,
        first(&samples, k.n),
        first_mut(plane, k.n),
        first_mut(coverings, k.b),
        first_mut(&mut scratch, k.n),
    );
}

// The plane and the coverings of a case: of its picture for the kinds below 8, and of any values for those above.
pub fn fill(k: Case, plane: &mut [i64], coverings: &mut [u8]) {
    if k.kind < 8 {
        of_picture(k, plane, coverings);
    } else {
        fill_plane(k, plane);
        fill_coverings(k, coverings);
    }
}

// Keeps the largest of a plane, cuts it, puts 0 everywhere, or leaves it as it is.
fn cut(k: Case, plane: &mut [i64]) {
    match k.seed / 4 % 8 {
        0 => {
            let _ = keeping::keep(k.height, k.width, k.levels, plane, 0);
        }
        1 => {
            let _ = keeping::keep(k.height, k.width, k.levels, plane, 5);
        }
        2 => {
            let _ = keeping::threshold(k.height, k.width, k.levels, plane, 7);
        }
        3 => {
            let _ = keeping::threshold(k.height, k.width, k.levels, plane, 900);
        }
        4 => plane.fill(0),
        _ => {}
    }
}

// The plane and the coverings of a case, the plane kept, cut, or left as it is, by the seed.
pub fn fill_cut(k: Case, plane: &mut [i64], coverings: &mut [u8]) {
    fill(k, plane, coverings);
    cut(k, first_mut(plane, k.n));
}

// Case c of a group of planes: every height with every width, levels from none to five, every kind of plane.
pub fn case_at(c: usize) -> Case {
    cases::inputs::case_at(c, 14)
}

// The same for groups that take each plane several times: every eleventh case, and so still every height, width, number of levels and kind.
pub fn sparse_case_at(c: usize) -> Case {
    case_at(times(c, 11))
}
