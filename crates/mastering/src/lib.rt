// Restoring as a master: the entry restore_master. Its checks are those of restoring and one more, the last: whether every numerator is 4^R times a whole
// number from 0 to 4,095. That is found by the crate `masters` before anything is stored, so that a refused call leaves all it was lent; the work is then
// restoring's own. What the entry answers and leaves is in specs/Entry.antt; what is proved of it beside the other entries is `MasterLaws` of specs/Claims.antt.
#![tactic(auto)]

ghost use Rattle.std.specs.Prelude.{◌≡◌};
ghost use Rattle.refusals.specs.Refusal.{answer_of};
ghost use Rattle.strips.specs.Strip.{strip_of};
ghost use Rattle.mastering.specs.Entry.{master_refusal, RestoredMaster};
ghost use Rattle.mastering.specs.Claims.{MasterLaws};

use refusals::Refusal;

// The checks of restore_master. Document 02, wish 13: those of restoring, and 20 "after 6 as the last check".
fn master_checks(
    height: usize,
    width: usize,
    levels: usize,
    plane: &[i64],
    coverings: &[u8],
    numerators: &[i64],
    samples: &[u16],
    scratch: &[i64],
) -> Result<(), Refusal>
    ensures { answer_of result ≡ master_refusal (strip_of height width levels plane.now coverings.now) numerators.now samples.now scratch.now }
{
    coder::restore_checks(
        height, width, levels, plane, coverings, numerators, samples, scratch,
    )?;
    if !masters::all_whole(height, width, levels, plane, coverings) {
        return Err(Refusal::Master);
    }
    Ok(())
}

// Restores a plane that was never cut, or another whose numerators are whole: numerators, samples, and zeros in the scratch slice. The contract carries the
// laws of masters too.
// Three wrong answers that the contract rules out: 20 where a coefficient is out of range; 20 for a plane that was never cut; and 20 with the numerators
// stored.
pub fn restore_master(
    height: usize,
    width: usize,
    levels: usize,
    plane: &[i64],
    coverings: &[u8],
    numerators: &mut [i64],
    samples: &mut [u16],
    scratch: &mut [i64],
) -> Result<(), Refusal>
    ensures { RestoredMaster (strip_of height width levels plane.now coverings.now) numerators.old numerators.new samples.old samples.new scratch.old scratch.new (answer_of result) × MasterLaws }
{
    master_checks(
        height, width, levels, plane, coverings, numerators, samples, scratch,
    )?;
    synthesis::restore_all(
        height, width, levels, plane, coverings, numerators, samples, scratch,
    );
    Ok(())
}
