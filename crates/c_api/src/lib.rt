// The entries for callers in C, C++ and Rust: numbers and slices only, each answer as its refusal number, 0 where the call is accepted. A slice passes as a
// pointer and a count of its elements. The contracts are those of the entries below; include/tetrolet.h has the declarations. Two wrong answers that the
// contracts rule out besides: height and width in each other's place; and a number that a refused call sets to 0.
#![tactic(auto)]

ghost use Rattle.std.specs.Prelude.{◌≡◌};
ghost use Rattle.refusals.specs.Refusal.{answer_of, count_of, after_call};
ghost use Rattle.sheet.specs.Write.{WriteAnswered};
ghost use Rattle.sheet.specs.Read.{ReadAnswered};
ghost use Rattle.sheet.specs.Usage.{UsageAnswered};
ghost use Rattle.keeping.specs.Entries.{Kept, Cut};
ghost use Rattle.c_api.specs.Told.{Told};
ghost use Rattle.coverings.specs.Entry.{WordAnswered};
ghost use Rattle.coder.specs.Entries.{Decomposed, DecomposedWithin, Restored};
ghost use Rattle.listing.specs.Entries.{DecomposedListed, RestoredListed};
ghost use Rattle.strips.specs.Strip.{strip_of};
ghost use Rattle.joining.specs.Entries.{Joined};
ghost use Rattle.viewer.specs.Window.{view_of, Viewed};
ghost use Rattle.smoothing.specs.Entry.{Smoothed};
ghost use Rattle.mastering.specs.Entry.{RestoredMaster};
ghost use Rattle.generator.specs.Generator.{Generated};
ghost use Rattle.calibration.specs.Entry.{ShownAnswered};

use refusals::Refusal;

// The number of an answer with a count; the count goes to `value`, which a refused call leaves as it was.
fn tell(answer: Result<usize, Refusal>, value: &mut usize) -> u32
    ensures number { result ≡ answer_of answer }
    ensures count { after_call result value.new 0 ≡ count_of answer }
    ensures told { Told result value.old value.new }
{
    match answer {
        Ok(count) => {
            *value = count;
            0
        }
        Err(r) => u32::from(r),
    }
}

// The word of a covering.
#[unsafe(no_mangle)]
pub extern "C" fn tetrolet_word(covering: u8, word: &mut [u8]) -> u32
    ensures { WordAnswered covering word.old word.new result }
{
    refusals::code(coverings::word_of(covering, word))
}

#[unsafe(no_mangle)]
pub extern "C" fn tetrolet_decompose(
    height: usize,
    width: usize,
    levels: usize,
    samples: &[u16],
    plane: &mut [i64],
    coverings: &mut [u8],
    scratch: &mut [i64],
) -> u32
    ensures { Decomposed height width levels samples.now plane.old plane.new coverings.old coverings.new scratch.old scratch.new result }
{
    refusals::code(coder::decompose(height, width, levels, samples, plane, coverings, scratch))
}

// Decomposes a picture with a tolerance; 0 gives what tetrolet_decompose gives.
#[unsafe(no_mangle)]
pub extern "C" fn tetrolet_decompose_within(
    height: usize,
    width: usize,
    levels: usize,
    tolerance: u64,
    samples: &[u16],
    plane: &mut [i64],
    coverings: &mut [u8],
    scratch: &mut [i64],
) -> u32
    ensures { DecomposedWithin height width levels tolerance samples.now plane.old plane.new coverings.old coverings.new scratch.old scratch.new result }
{
    refusals::code(coder::decompose_within(
        height, width, levels, tolerance, samples, plane, coverings, scratch,
    ))
}

#[unsafe(no_mangle)]
pub extern "C" fn tetrolet_restore(
    height: usize,
    width: usize,
    levels: usize,
    plane: &[i64],
    coverings: &[u8],
    numerators: &mut [i64],
    samples: &mut [u16],
    scratch: &mut [i64],
) -> u32
    ensures { Restored height width levels plane.now coverings.now numerators.old numerators.new samples.old samples.new scratch.old scratch.new result }
{
    refusals::code(coder::restore(
        height, width, levels, plane, coverings, numerators, samples, scratch,
    ))
}

// Decomposes a picture with a tolerance and a list of coverings; a list of all 117 gives what tetrolet_decompose_within gives.
#[unsafe(no_mangle)]
pub extern "C" fn tetrolet_decompose_listed(
    height: usize,
    width: usize,
    levels: usize,
    tolerance: u64,
    samples: &[u16],
    list: &[u8],
    plane: &mut [i64],
    coverings: &mut [u8],
    scratch: &mut [i64],
) -> u32
    ensures { DecomposedListed height width levels tolerance samples.now list.now plane.old plane.new coverings.old coverings.new scratch.old scratch.new result }
{
    refusals::code(listing::decompose_listed(
        height, width, levels, tolerance, samples, list, plane, coverings, scratch,
    ))
}

// Restores with a list of coverings, in which each block's must stand.
#[unsafe(no_mangle)]
pub extern "C" fn tetrolet_restore_listed(
    height: usize,
    width: usize,
    levels: usize,
    plane: &[i64],
    coverings: &[u8],
    list: &[u8],
    numerators: &mut [i64],
    samples: &mut [u16],
    scratch: &mut [i64],
) -> u32
    ensures { RestoredListed height width levels plane.now coverings.now list.now numerators.old numerators.new samples.old samples.new scratch.old scratch.new result }
{
    refusals::code(listing::restore_listed(
        height, width, levels, plane, coverings, list, numerators, samples, scratch,
    ))
}

// Restores a master, whose numerators are 4^R times whole samples.
#[unsafe(no_mangle)]
pub extern "C" fn tetrolet_restore_master(
    height: usize,
    width: usize,
    levels: usize,
    plane: &[i64],
    coverings: &[u8],
    numerators: &mut [i64],
    samples: &mut [u16],
    scratch: &mut [i64],
) -> u32
    ensures { RestoredMaster (strip_of height width levels plane.now coverings.now) numerators.old numerators.new samples.old samples.new scratch.old scratch.new result }
{
    refusals::code(mastering::restore_master(
        height, width, levels, plane, coverings, numerators, samples, scratch,
    ))
}

// Joins a left and a right strip into one, twice as wide.
#[unsafe(no_mangle)]
pub extern "C" fn tetrolet_join(
    left_height: usize,
    left_width: usize,
    left_levels: usize,
    left_plane: &[i64],
    left_coverings: &[u8],
    right_height: usize,
    right_width: usize,
    right_levels: usize,
    right_plane: &[i64],
    right_coverings: &[u8],
    plane: &mut [i64],
    coverings: &mut [u8],
) -> u32
    ensures { Joined (strip_of left_height left_width left_levels left_plane.now left_coverings.now) (strip_of right_height right_width right_levels right_plane.now right_coverings.now) plane.old plane.new coverings.old coverings.new result }
{
    refusals::code(joining::join(
        left_height,
        left_width,
        left_levels,
        left_plane,
        left_coverings,
        right_height,
        right_width,
        right_levels,
        right_plane,
        right_coverings,
        plane,
        coverings,
    ))
}

#[unsafe(no_mangle)]
pub extern "C" fn tetrolet_window(
    height: usize,
    width: usize,
    levels: usize,
    plane: &[i64],
    coverings: &[u8],
    top: usize,
    left: usize,
    window_height: usize,
    window_width: usize,
    samples: &mut [u16],
) -> u32
    ensures { Viewed (strip_of height width levels plane.now coverings.now) (view_of top left window_height window_width) samples.old samples.new result }
{
    refusals::code(viewer::window(
        height,
        width,
        levels,
        plane,
        coverings,
        top,
        left,
        window_height,
        window_width,
        samples,
    ))
}

// One smoothing step of a kept plane.
#[unsafe(no_mangle)]
pub extern "C" fn tetrolet_smooth(
    height: usize,
    width: usize,
    levels: usize,
    plane: &[i64],
    coverings: &[u8],
    step: u64,
    res: &mut [i64],
    scratch: &mut [i64],
) -> u32
    ensures { Smoothed (strip_of height width levels plane.now coverings.now) step res.old res.new scratch.old scratch.new result }
{
    refusals::code(smoothing::smooth(height, width, levels, plane, coverings, step, res, scratch))
}

// Writes a tetrolet sheet; its length goes to `length`, which a refused call leaves as it was.
#[unsafe(no_mangle)]
pub extern "C" fn tetrolet_write(
    height: usize,
    width: usize,
    levels: usize,
    plane: &[i64],
    coverings: &[u8],
    buffer: &mut [u8],
    length: &mut usize,
) -> u32
    ensures { WriteAnswered height width levels plane.now coverings.now buffer.old buffer.new result (after_call result length.new 0) × Told result length.old length.new }
{
    tell(
        sheet::write(height, width, levels, plane, coverings, buffer),
        length,
    )
}

// Writes a usage list; its length goes to `length`, which a refused call leaves as it was.
#[unsafe(no_mangle)]
pub extern "C" fn tetrolet_usage(coverings: &[u8], buffer: &mut [u8], length: &mut usize) -> u32
    ensures { UsageAnswered coverings.now buffer.old buffer.new result (after_call result length.new 0) × Told result length.old length.new }
{
    tell(sheet::usage(coverings, buffer), length)
}

// Reads a tetrolet sheet; its height, width and levels go to the references of these names, which a refused call leaves as they were.
#[unsafe(no_mangle)]
pub extern "C" fn tetrolet_read(
    text: &[u8],
    plane: &mut [i64],
    coverings: &mut [u8],
    height: &mut usize,
    width: &mut usize,
    levels: &mut usize,
) -> u32
    ensures { ReadAnswered text.now plane.old plane.new coverings.old coverings.new result (after_call result height.new 0) (after_call result width.new 0) (after_call result levels.new 0) × Told result height.old height.new × Told result width.old width.new × Told result levels.old levels.new }
{
    let answer = sheet::read(text, plane, coverings);
    match answer {
        Ok(sheet) => {
            *height = sheet.height;
            *width = sheet.width;
            *levels = sheet.levels;
            0
        }
        Err(r) => u32::from(r),
    }
}

// Keeps the largest K; the number of tetrolet entries not zero that are left goes to `left`, which a refused call leaves as it was.
#[unsafe(no_mangle)]
pub extern "C" fn tetrolet_keep(
    height: usize,
    width: usize,
    levels: usize,
    plane: &mut [i64],
    quota: u64,
    left: &mut usize,
) -> u32
    ensures { Kept height width levels plane.old plane.new quota result (after_call result left.new 0) × Told result left.old left.new }
{
    tell(keeping::keep(height, width, levels, plane, quota), left)
}

// Cuts by a threshold; the number of tetrolet entries not zero that are left goes to `left`, which a refused call leaves as it was.
#[unsafe(no_mangle)]
pub extern "C" fn tetrolet_threshold(
    height: usize,
    width: usize,
    levels: usize,
    plane: &mut [i64],
    limit: u64,
    left: &mut usize,
) -> u32
    ensures { Cut height width levels plane.old plane.new limit result (after_call result left.new 0) × Told result left.old left.new }
{
    tell(
        keeping::threshold(height, width, levels, plane, limit),
        left,
    )
}

// Writes the test image of a start.
#[unsafe(no_mangle)]
pub extern "C" fn tetrolet_test_image(
    height: usize,
    width: usize,
    start: u32,
    samples: &mut [u16],
) -> u32
    ensures { Generated height width start samples.old samples.new result }
{
    refusals::code(generator::test_image(height, width, start, samples))
}

// Writes the block that shows a covering; `found` is then 1, and 0 where there is none. A refused call leaves it as it was.
#[unsafe(no_mangle)]
pub extern "C" fn tetrolet_show(
    covering: u8,
    steps: &[u16],
    samples: &mut [u16],
    found: &mut u8,
) -> u32
    ensures { ShownAnswered covering steps.now samples.old samples.new result (after_call result found.new 0) × Told result found.old found.new }
{
    let answer = calibration::show(covering, steps, samples);
    match answer {
        Ok(shown) => {
            *found = u8::from(shown);
            0
        }
        Err(r) => u32::from(r),
    }
}
