// The window viewer, a product above the store: the entry window, by which a window of a picture is restored alone. Its checks are those of restoring, with
// one for the window; the work is that of the crate `windows`. What the entry answers and leaves is in specs/Window.antt; what is proved of it beside the
// store's restoring is `ViewerLaws` of specs/Claims.antt.
#![tactic(auto)]

ghost use Rattle.std.specs.Prelude.{◌≡◌};
ghost use Rattle.refusals.specs.Refusal.{answer_of};
ghost use Rattle.strips.specs.Strip.{strip_of};
ghost use Rattle.viewer.specs.Window.{view_of, is_within, window_refusal, Viewed};
ghost use Rattle.viewer.specs.Claims.{ViewerLaws};

use refusals::Refusal;
use windows::View;

// The least number of cells of a window. With it stand the laws of windows.
pub fn fewest_cells() -> usize
    ensures { (result ≡ 1) × ViewerLaws }
{
    1
}

// Whether `count` rows, or columns, from `first` on are one or more, and none of them is behind the last of `n`. No sum is formed, so none is too large.
// Two wrong answers that the contract rules out: no for all `n` of them; and yes for a first one so large that the sum starts again at 0.
fn is_within(n: usize, first: usize, count: usize) -> bool
    ensures { result ≡ is_within n first count }
{
    0 < count && count <= n && first <= n - count
}

// The checks of window. Document 02, wish 9: those of restoring without a list, and 17 "after 2 and before 3".
fn window_checks(
    height: usize,
    width: usize,
    levels: usize,
    plane: &[i64],
    coverings: &[u8],
    v: View,
    samples: &[u16],
) -> Result<(), Refusal>
    ensures { answer_of result ≡ window_refusal (strip_of height width levels plane.now coverings.now) v samples.now }
{
    places::checks::size_checks(height, width, levels)?;
    let fits = is_within(height, v.top, v.tall) & is_within(width, v.left, v.wide);
    if !fits {
        return Err(Refusal::Window);
    }
    let framed = coder::is_framed(height, width, levels, plane, coverings)
        & (samples.len() == v.wide * v.tall);
    if !framed {
        return Err(Refusal::Frame);
    }
    if !places::checks::all_numbers(coverings) {
        return Err(Refusal::Covering);
    }
    if !ranges::in_range(plane, height as u32, width as u32, levels as u32) {
        return Err(Refusal::Coefficient);
    }
    Ok(())
}

// Restores the samples of a window, `tall` rows from `top` on and `wide` columns from `left` on, of the picture that a plane restores to.
// Two wrong answers that the contract rules out: 17 for the whole picture; and the samples of the picture's first rows and columns.
pub fn window(
    height: usize,
    width: usize,
    levels: usize,
    plane: &[i64],
    coverings: &[u8],
    top: usize,
    left: usize,
    tall: usize,
    wide: usize,
    samples: &mut [u16],
) -> Result<(), Refusal>
    ensures { Viewed (strip_of height width levels plane.now coverings.now) (view_of top left tall wide) samples.old samples.new (answer_of result) }
{
    let v = View {
        top,
        left,
        tall,
        wide,
    };
    window_checks(height, width, levels, plane, coverings, v, samples)?;
    windows::fill_window(height, width, levels, plane, coverings, v, samples);
    Ok(())
}
