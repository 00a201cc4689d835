// Joining: the entry join, by which two neighbouring strips become one, twice as wide. The joined plane and coverings, and their laws, are those of the
// crate `strips`. What the entry answers and leaves is in specs/Entries.antt; what is proved of it beside the other entries, `JoiningLaws` of
// specs/Claims.antt, is in proofs/Together.antt.
#![tactic(auto)]

ghost use Rattle.std.specs.Prelude.{◌≡◌, ℕ, length};
ghost use Rattle.refusals.specs.Refusal.{answer_of, after_call};
ghost use Rattle.strips.specs.Join.{joined_of, joined_covers};
ghost use Rattle.strips.specs.Strip.{strip_of};
ghost use Rattle.joining.specs.Claims.{JoiningLaws};
ghost use Rattle.joining.specs.Entries.{pair_refusal, join_refusal, Joined};
ghost use Rattle.joining.specs.Pairs.{PairRoom, Paired, PlaneRoom, CoverRoom};

use refusals::Refusal;

// The largest width of a strip that is joined to another as wide. Its contract carries the laws of the entry, which are so a part of what the check proves.
pub fn widest_half() -> usize
    ensures { (result ≡ 256) × JoiningLaws }
{
    256
}

// A rectangle of both strips side by side: rows from `top` on, columns from `col` on, which stand in the joined plane from twice `col` on.
fn put_pair(
    left: &[i64],
    right: &[i64],
    height: usize,
    top: usize,
    col: usize,
    tall: usize,
    wide: usize,
    out: &mut [i64],
)
    requires { PairRoom height top col tall wide (length left.now) (length right.now) (length out.old) }
    ensures { Paired height top col tall wide left.now right.now out.old out.new }
{
    let start = col * height;
    let first = start + top;
    let at = start + first;
    slices::move_columns(left, first, out, at, height, tall, wide);
    slices::move_columns(right, first, out, at + wide * height, height, tall, wide);
}

// The joined plane. Of each level the right half is whole columns, bands 1 and 3; below the low-pass is band 2; after the last level the low-pass is left.
// Two wrong answers that the contract rules out: the right strip's columns first; the low-pass of the right strip left out.
fn join_planes(
    left: &[i64],
    right: &[i64],
    height: usize,
    width: usize,
    levels: usize,
    plane: &mut [i64],
)
    requires { PlaneRoom levels height width (length left.now) (length right.now) (length plane.old) }
    ensures { plane.new ≡ joined_of levels height width left.now right.now }
{
    let mut tall = height;
    let mut wide = width;
    for _ in 0..levels {
        let low = tall / 2;
        let half = wide / 2;
        put_pair(left, right, height, 0, half, tall, half, plane);
        put_pair(left, right, height, low, 0, low, half, plane);
        tall = low;
        wide = half;
    }
    put_pair(left, right, height, 0, 0, tall, wide, plane);
}

// The joined coverings. Two wrong answers that the contract rules out: the right strip's first; one list whole after the other.
fn join_coverings(
    left: &[u8],
    right: &[u8],
    height: usize,
    width: usize,
    levels: usize,
    coverings: &mut [u8],
)
    requires { CoverRoom levels height width (length left.now) (length right.now) (length coverings.old) }
    ensures { coverings.new ≡ joined_covers levels height width left.now right.now }
{
    let mut tall = height;
    let mut wide = width;
    let mut first = 0;
    for _ in 0..levels {
        let n = (wide / 4) * (tall / 4);
        let at = first + first;
        slices::move_numbers(left, first, coverings, at, n);
        slices::move_numbers(right, first, coverings, at + n, n);
        first += n;
        tall /= 2;
        wide /= 2;
    }
}

// The checks of the heights, widths and levels; `rest` is what those behind them give. The joined width is worked out when the width is known to be a side.
// Document 02, wish 8: "15 when heights, widths or levels differ, after 2; 16 when the joined width is over 512, after 15 and before 3".
fn pair_checks(
    left_height: usize,
    left_width: usize,
    left_levels: usize,
    right_height: usize,
    right_width: usize,
    right_levels: usize,
) -> Result<(), Refusal>
    ensures { (rest : ℕ) → pair_refusal left_height left_width left_levels right_height right_width right_levels rest ≡ after_call (answer_of result) rest (answer_of result) }
{
    let sided = places::checks::are_sides(left_height, left_width)
        & places::checks::are_sides(right_height, right_width);
    if !sided {
        return Err(Refusal::Side);
    }
    let deep = places::checks::is_depth(left_levels, left_height, left_width)
        & places::checks::is_depth(right_levels, right_height, right_width);
    if !deep {
        return Err(Refusal::Depth);
    }
    let same = (left_height == right_height)
        & ((left_width == right_width) & (left_levels == right_levels));
    if !same {
        return Err(Refusal::Mismatch);
    }
    if strips::widest() < left_width + left_width {
        return Err(Refusal::JoinedWidth);
    }
    Ok(())
}

// The checks of join. Document 02, wish 8: "Each check takes the left strip, then the right, before the next check; 3 then looks at the joined slices."
fn join_checks(
    left_height: usize,
    left_width: usize,
    left_levels: usize,
    left_plane: &[i64],
    left_coverings: &[u8],
    right_height: usize,
    right_width: usize,
    right_levels: usize,
    right_plane: &[i64],
    right_coverings: &[u8],
    plane: &[i64],
    coverings: &[u8],
) -> Result<(), Refusal>
    ensures { answer_of result ≡ join_refusal (strip_of left_height left_width left_levels left_plane.now left_coverings.now) (strip_of right_height right_width right_levels right_plane.now right_coverings.now) plane.now coverings.now }
{
    pair_checks(
        left_height,
        left_width,
        left_levels,
        right_height,
        right_width,
        right_levels,
    )?;
    let framed = coder::is_framed(
        left_height,
        left_width,
        left_levels,
        left_plane,
        left_coverings,
    ) & (coder::is_framed(
        right_height,
        right_width,
        right_levels,
        right_plane,
        right_coverings,
    ) & coder::is_framed(
        left_height,
        left_width + left_width,
        left_levels,
        plane,
        coverings,
    ));
    if !framed {
        return Err(Refusal::Frame);
    }
    let numbered = places::checks::all_numbers(left_coverings)
        & places::checks::all_numbers(right_coverings);
    if !numbered {
        return Err(Refusal::Covering);
    }
    let ranged = ranges::in_range(
        left_plane,
        left_height as u32,
        left_width as u32,
        left_levels as u32,
    ) & ranges::in_range(
        right_plane,
        right_height as u32,
        right_width as u32,
        right_levels as u32,
    );
    if !ranged {
        return Err(Refusal::Coefficient);
    }
    Ok(())
}

// Joins a left and a right strip of one height, width and number of levels: each band and each level's coverings hold the left strip's columns, then the
// right strip's.
// Two wrong answers that the contract rules out: 16 for strips 256 wide; and the left strip's columns in the right strip's place.
pub fn join(
    left_height: usize,
    left_width: usize,
    left_levels: usize,
    left_plane: &[i64],
    left_coverings: &[u8],
    right_height: usize,
    right_width: usize,
    right_levels: usize,
    right_plane: &[i64],
    right_coverings: &[u8],
    plane: &mut [i64],
    coverings: &mut [u8],
) -> Result<(), Refusal>
    ensures { Joined (strip_of left_height left_width left_levels left_plane.now left_coverings.now) (strip_of right_height right_width right_levels right_plane.now right_coverings.now) plane.old plane.new coverings.old coverings.new (answer_of result) }
{
    join_checks(
        left_height,
        left_width,
        left_levels,
        left_plane,
        left_coverings,
        right_height,
        right_width,
        right_levels,
        right_plane,
        right_coverings,
        plane,
        coverings,
    )?;
    join_planes(
        left_plane,
        right_plane,
        left_height,
        left_width,
        left_levels,
        plane,
    );
    join_coverings(
        left_coverings,
        right_coverings,
        left_height,
        left_width,
        left_levels,
        coverings,
    );
    Ok(())
}
