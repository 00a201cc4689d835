// The chain of the third demand: decompose with a tolerance and a list of coverings, then keep on the plane as left, then restore what keep left, with the
// coverings that decomposing gave and the height, the width and the levels the same throughout. What it answers and leaves, and the third demand of its own
// slices, is in specs/Chain.antt.
#![tactic(auto)]

ghost use Rattle.std.specs.Prelude.{◌≡◌};
ghost use Rattle.refusals.specs.Refusal.{answer_of, count_of};
ghost use Rattle.chain.specs.Chain.{chain_refusal, Chained};

use refusals::Refusal;

// The checks of the chain, all before its first call: those of decompose_listed, with restore's slices too, then the quota.
fn chain_checks(
    height: usize,
    width: usize,
    levels: usize,
    tolerance: u64,
    quota: u64,
    samples: &[u16],
    list: &[u8],
    plane: &[i64],
    coverings: &[u8],
    numerators: &[i64],
    restored: &[u16],
    scratch: &[i64],
) -> Result<(), Refusal>
    ensures { answer_of result ≡ chain_refusal height width levels tolerance quota samples.now list.now plane.now coverings.now numerators.now restored.now scratch.now }
{
    places::checks::size_checks(height, width, levels)?;
    let area = width * height;
    let blocks = places::checks::count_blocks(levels, height, width);
    let framed = ((samples.len() == area)
        & ((plane.len() == area) & ((coverings.len() == blocks) & (scratch.len() == area))))
        & ((numerators.len() == area) & (restored.len() == area));
    if !framed {
        return Err(Refusal::Frame);
    }
    if !coder::all_samples(samples) {
        return Err(Refusal::Sample);
    }
    if terms::largest_tolerance() < tolerance {
        return Err(Refusal::Tolerance);
    }
    if !listing::is_list(list) {
        return Err(Refusal::Listing);
    }
    if sifting::ranks::most_entries(height as u32, width as u32, levels as u32) < quota {
        return Err(Refusal::Quota);
    }
    Ok(())
}

// Decomposes, keeps and restores; gives the number of tetrolet entries left.
// Two wrong answers that the contract rules out: the numerators of the plane before keep; a plane that is decomposed where the quota is then refused.
pub fn decompose_keep_restore(
    height: usize,
    width: usize,
    levels: usize,
    tolerance: u64,
    quota: u64,
    samples: &[u16],
    list: &[u8],
    plane: &mut [i64],
    coverings: &mut [u8],
    numerators: &mut [i64],
    restored: &mut [u16],
    scratch: &mut [i64],
) -> Result<usize, Refusal>
    ensures { Chained height width levels tolerance quota samples.now list.now plane.old plane.new coverings.old coverings.new numerators.old numerators.new restored.old restored.new scratch.old scratch.new (answer_of result) (count_of result) }
{
    chain_checks(
        height, width, levels, tolerance, quota, samples, list, plane, coverings, numerators,
        restored, scratch,
    )?;
    // None of the three is refused after these checks.
    let _ = listing::decompose_listed(
        height, width, levels, tolerance, samples, list, plane, coverings, scratch,
    );
    let kept = keeping::keep(height, width, levels, plane, quota);
    let _ = coder::restore(
        height, width, levels, plane, coverings, numerators, restored, scratch,
    );
    kept
}
