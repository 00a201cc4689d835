// The checks of heights, widths, levels, lengths, coverings and the range of one entry, as tests.
ghost use Rattle.std.specs.Prelude.{◌≡◌, ◌&&◌, ℕ, suc, ◌*◌, ◌^◌, ◌<◌, ◌≤◌, leb};
ghost use Rattle.integers.specs.Lists.{every};
ghost use Rattle.refusals.specs.Refusal.{answer_of, after_call};
ghost use Rattle.coverings.specs.Entry.{is_number};
ghost use Rattle.pyramid.specs.Plane.{all_blocks};
ghost use Rattle.pyramid.specs.Sides.{is_side, is_sides, is_depth};
ghost use Rattle.pyramid.specs.Ranges.{fits_range};
ghost use Rattle.places.specs.Sizes.{size_refusal};
ghost use Rattle.places.specs.Walk.{Inside, entry_of};
ghost use Rattle.places.specs.Walk.{index_in};

use crate::walk::Walk;
use refusals::Refusal;

// Whether n is a side: a height or a width.
pub fn is_side(n: usize) -> bool
    ensures { result ≡ is_side n }
{
    match n {
        4 | 8 | 16 | 32 | 64 | 128 | 256 | 512 => true,
        _ => false,
    }
}

// Whether both are sides.
pub fn are_sides(height: usize, width: usize) -> bool
    ensures { result ≡ is_sides height width }
{
    is_side(height) & is_side(width)
}

// Whether a side can be halved so many times and leave at least 2.
fn reaches(levels: usize, side: usize) -> bool
    requires { side ≤ 512 }
    ensures { result ≡ (leb 1 levels && leb (2 ^ suc levels) side) }
{
    if levels < 1 || 8 < levels {
        return false;
    }
    2usize << levels <= side
}

// Whether a plane of this height and width has so many levels.
pub fn is_depth(levels: usize, height: usize, width: usize) -> bool
    requires { (height ≤ 512) × (width ≤ 512) }
    ensures { result ≡ is_depth levels height width }
{
    reaches(levels, height) & reaches(levels, width)
}

// The checks 1 and 2, with which each list of a picture or a plane begins; `rest` is what the checks behind them give.
// Two wrong answers that the contract rules out: 2 for 8 by 12 with no levels; accepting 64 by 8 with 3 levels.
pub fn size_checks(height: usize, width: usize, levels: usize) -> Result<(), Refusal>
    ensures { (rest : ℕ) → size_refusal height width levels rest ≡ after_call (answer_of result) rest (answer_of result) }
{
    if !are_sides(height, width) {
        return Err(Refusal::Side);
    }
    if !is_depth(levels, height, width) {
        return Err(Refusal::Depth);
    }
    Ok(())
}

// The number of blocks of all levels.
pub fn count_blocks(levels: usize, height: usize, width: usize) -> usize
    requires { (height ≤ 512) × (width ≤ 512) × (levels ≤ 8) }
    ensures { (result ≡ all_blocks levels height width) × (result ≤ 131072) }
{
    let mut total: usize = 0;
    let mut h = height;
    let mut w = width;
    for _ in 0..levels {
        total += (w / 4) * (h / 4);
        h /= 2;
        w /= 2;
    }
    total
}

// Whether each covering has a number, 1 to 117.
pub fn all_numbers(coverings: &[u8]) -> bool
    ensures { result ≡ every is_number coverings.now }
{
    coverings.iter().all(|c| 1 <= *c && *c <= 117)
}

// 4 to the power r. Two wrong answers that the contract rules out: 0 for r 0, and 4 times r.
pub fn power(r: u32) -> u64
    requires { r ≤ 9 }
    ensures { result ≡ 4 ^ r }
{
    4u64.pow(r)
}

// Whether a value at a level and a band is in its range.
pub fn fits_range(levels: u32, k: Walk, v: i64) -> bool
    requires { (levels ≤ 9) × (1 ≤ k.level) × (k.level ≤ 9) }
    ensures { result ≡ fits_range levels (entry_of k) v }
{
    let m = integers::magnitude(v);
    if k.band == 0 {
        if v < 0 {
            return false;
        }
        return m <= 4095 * power(levels);
    }
    let p = k.level - 1;
    m <= 2 * power(p) * 4095
}

// The row of the present entry of a walk in the plane.
fn down_of(k: Walk, height: u32, width: u32) -> u32
    requires { Inside height width k }
    ensures { (result ≡ (entry_of k).down) × (result < height) }
{
    if 2 <= k.band {
        return k.height + k.row;
    }
    k.row
}

// Its column.
fn across_of(k: Walk, height: u32, width: u32) -> u32
    requires { Inside height width k }
    ensures { (result ≡ (entry_of k).across) × (result < width) }
{
    if k.band == 1 {
        return k.width + k.col;
    }
    if k.band == 3 {
        return k.width + k.col;
    }
    k.col
}

// Where the present entry of a walk stands in the plane.
pub fn index_of(k: Walk, height: u32, width: u32) -> usize
    requires { Inside height width k }
    ensures { (result ≡ index_in height (entry_of k)) × (result < width * height) }
{
    let down = down_of(k, height, width);
    let across = across_of(k, height, width);
    (across * height + down) as usize
}
