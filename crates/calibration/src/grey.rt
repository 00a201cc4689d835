// The grey steps of a card: one to four, strictly rising, up to 4,095.
ghost use Rattle.std.specs.Prelude.{◌≡◌};
ghost use Rattle.calibration.specs.Card.{are_steps};
ghost use Rattle.calibration.specs.Laws.{CardLaws};

// The most steps. Its contract has the laws of the blocks that show a covering, which are so a part of what the check proves.
pub fn most_steps() -> usize
    ensures { (result ≡ 4) × CardLaws }
{
    4
}

// The steps of a card. Two wrong answers that the contract rules out: no step taken; and two equal steps taken.
pub fn are_steps(steps: &[u16]) -> bool
    ensures { result ≡ are_steps steps.now }
{
    if steps.is_empty() || most_steps() < steps.len() {
        return false;
    }
    // No step is over 4,095, as no sample is.
    steps.is_sorted_by(|a, b| *a < *b) && coder::all_samples(steps)
}
