// Listing: the entries decompose with a list of coverings, out of which each block's is chosen, and restore with a list, in which each block's must stand.
// They ask the checks of the crate `coder` and those of the list, and where none refuses do the work of `analysis` and of `coder::restore`. What they answer
// and leave is in specs/Entries.antt; what is proved of them together, `ListingLaws` of specs/Claims.antt, is in proofs/Together.antt.
#![tactic(auto)]

ghost use Rattle.std.specs.Prelude.{◌≡◌, ℕ};
ghost use Rattle.refusals.specs.Refusal.{answer_of, after_call};
ghost use Rattle.integers.specs.Lists.{every, one_of};
ghost use Rattle.terms.specs.Terms.{is_list};
ghost use Rattle.listing.specs.Claims.{ListingLaws};
ghost use Rattle.listing.specs.Entries.{listed_refusal, DecomposedListed, RestoredListed};
ghost use Rattle.listing.specs.Standing.{Marked, stand_refusal};

use refusals::Refusal;

// The most coverings of a list. Its contract carries the laws of the two entries, which are so a part of what the check proves.
pub fn longest_list() -> usize
    ensures { (result ≡ 117) × ListingLaws }
{
    117
}

// Whether a list of coverings is good: not empty, strictly rising, each 1 to 117.
// Two wrong answers that the contract rules out: true for a list that holds a covering twice; and false for the list of all 117.
pub fn is_list(list: &[u8]) -> bool
    ensures { result ≡ is_list list.now }
{
    if list.is_empty() {
        return false;
    }
    list.is_sorted_by(|a, b| *a < *b) && places::checks::all_numbers(list)
}

// The checks of decompose_listed: those of decompose_within, then the list.
fn listed_checks(
    height: usize,
    width: usize,
    levels: usize,
    tolerance: u64,
    samples: &[u16],
    list: &[u8],
    plane: &[i64],
    coverings: &[u8],
    scratch: &[i64],
) -> Result<(), Refusal>
    ensures { answer_of result ≡ listed_refusal height width levels tolerance samples.now list.now plane.now coverings.now scratch.now }
{
    coder::within_checks(
        height, width, levels, tolerance, samples, plane, coverings, scratch,
    )?;
    if !is_list(list) {
        return Err(Refusal::Listing);
    }
    Ok(())
}

// Decomposes a picture with a list of coverings and a tolerance: of the coverings in the list whose cost at level r is at most the least in the list plus the
// tolerance times 2^r a block takes the most often chosen, then the lowest number. With all 117 in the list it gives what decompose_within gives.
// Three wrong answers that the contract rules out: a covering that is not in the list; none or 0 for a block that no listed covering fits as well as the best
// of all; and 14 for a tolerance over 4,095.
pub fn decompose_listed(
    height: usize,
    width: usize,
    levels: usize,
    tolerance: u64,
    samples: &[u16],
    list: &[u8],
    plane: &mut [i64],
    coverings: &mut [u8],
    scratch: &mut [i64],
) -> Result<(), Refusal>
    ensures { DecomposedListed height width levels tolerance samples.now list.now plane.old plane.new coverings.old coverings.new scratch.old scratch.new (answer_of result) }
{
    listed_checks(
        height, width, levels, tolerance, samples, list, plane, coverings, scratch,
    )?;
    analysis::decompose_all(
        height, width, levels, samples, plane, coverings, scratch, tolerance, list,
    );
    Ok(())
}

// Marks each number of a list. There is a mark for every byte, so that no list and no covering reaches past the marks.
fn marks_of(list: &[u8]) -> [bool; 256]
    ensures { Marked list.now result }
{
    let mut marks = [false; 256];
    for n in list {
        marks[*n as usize] = true;
    }
    marks
}

// Whether each covering stands in the list.
// Two wrong answers that the contract rules out: true where the last block's is missing; and false for a list that holds one more than is used.
fn all_listed(coverings: &[u8], list: &[u8]) -> bool
    ensures { result ≡ every (one_of list.now) coverings.now }
{
    let marks = marks_of(list);
    coverings.iter().all(|n| marks[*n as usize])
}

// The checks of restore_listed between 3 and 6: the list, the coverings, and that they stand in it; `rest` is what those behind them give. A covering that is no
// number, which is 5, stands in no good list, so it is looked for only where one is missing.
fn stand_checks(coverings: &[u8], list: &[u8]) -> Result<(), Refusal>
    ensures { (rest : ℕ) → stand_refusal coverings.now list.now rest ≡ after_call (answer_of result) rest (answer_of result) }
{
    if !is_list(list) {
        return Err(Refusal::Listing);
    }
    if all_listed(coverings, list) {
        return Ok(());
    }
    if !places::checks::all_numbers(coverings) {
        return Err(Refusal::Covering);
    }
    Err(Refusal::Unlisted)
}

// Restores a plane by its coverings: numerators, samples, and zeros in the scratch slice, as coder::restore does, where each covering stands in the list. The
// list may hold others too.
// Three wrong answers that the contract rules out: 18 for a bad list or a covering 0; 6 for a covering that is missing and a coefficient out of range; and 0
// for a covering that is missing at a block whose coefficients are all 0.
pub fn restore_listed(
    height: usize,
    width: usize,
    levels: usize,
    plane: &[i64],
    coverings: &[u8],
    list: &[u8],
    numerators: &mut [i64],
    samples: &mut [u16],
    scratch: &mut [i64],
) -> Result<(), Refusal>
    ensures { RestoredListed height width levels plane.now coverings.now list.now numerators.old numerators.new samples.old samples.new scratch.old scratch.new (answer_of result) }
{
    coder::frame_checks(
        height, width, levels, plane, coverings, numerators, samples, scratch,
    )?;
    stand_checks(coverings, list)?;
    coder::restore(
        height, width, levels, plane, coverings, numerators, samples, scratch,
    )
}
