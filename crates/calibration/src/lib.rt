// Blocks that show a covering, for calibration cards: for a covering and one to four grey steps the first choice of steps, one for each piece, whose block
// has this covering as its only covering of cost 0. The definitions are in specs/Card.antt and their laws, `CardLaws`, in specs/Laws.antt; what the entry
// answers and leaves is in specs/Entry.antt, and what is proved of its calls beside decomposing, `ShowLaws`, in specs/Claims.antt.
#![tactic(auto)]

ghost use Rattle.std.specs.Prelude.{◌≡◌};
ghost use Rattle.refusals.specs.Refusal.{answer_of, flag_of};
ghost use Rattle.calibration.specs.Entry.{show_refusal, ShownAnswered};
ghost use Rattle.calibration.specs.Claims.{ShowLaws};

use refusals::Refusal;

pub mod card;
pub mod grey;
pub mod search;

// The checks of show, which looks at nothing else. Document 02, wish 14: 3 and 5, then 21.
fn show_checks(covering: u8, steps: &[u16], samples: &[u16]) -> Result<(), Refusal>
    ensures { answer_of result ≡ show_refusal covering steps.now samples.now }
{
    if samples.len() != 16 {
        return Err(Refusal::Frame);
    }
    let numbered = (1 <= covering) & (covering <= 117);
    if !numbered {
        return Err(Refusal::Covering);
    }
    if !grey::are_steps(steps) {
        return Err(Refusal::Steps);
    }
    Ok(())
}

// The entry "a block that shows a covering": writes the block's sixteen samples in cell order, or answers that there is none. The contract carries the laws of
// its calls too.
// Three wrong answers that the contract rules out: samples that are changed where the answer is none; a block that other coverings fit too; and a later choice
// of steps.
pub fn show(covering: u8, steps: &[u16], samples: &mut [u16]) -> Result<bool, Refusal>
    ensures { ShownAnswered covering steps.now samples.old samples.new (answer_of result) (flag_of result) × ShowLaws }
{
    show_checks(covering, steps, samples)?;
    let choice = search::first_choice(covering, steps);
    match choice {
        Some(s) => {
            card::put_card(covering, s, samples);
            Ok(true)
        }
        None => Ok(false),
    }
}
