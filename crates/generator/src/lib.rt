// The test image: document 02's "test load from a number", the same picture on every site. Its samples are those of a linear congruential generator from
// a 32-bit start. What the entry answers, and what it leaves in the slice, is in specs/Generator.antt. The crate stands above `coder` because its laws
// (specs/Laws.antt) say that decompose takes every test image.
#![tactic(auto)]

ghost use Rattle.std.specs.Prelude.{◌≡◌, length};
ghost use Rattle.refusals.specs.Refusal.{answer_of};
ghost use Rattle.generator.specs.Generator.{step_of, output_of, samples_from, image_refusal, Generated};
ghost use Rattle.generator.specs.Laws.{GeneratorLaws};

use refusals::Refusal;

mod wrap;

// The state after s.
fn next(s: u32) -> u32
    ensures { result ≡ step_of s }
{
    std::num::wrapping_add_u32(wrap::wrapping_mul(s, 1664525), 1013904223)
}

// The sample of a state: its upper 12 bits.
fn sample(s: u32) -> u16
    ensures { result ≡ output_of s }
{
    (s >> 20) as u16
}

// Fills a slice with samples, from its front.
fn fill(start: u32, samples: &mut [u16])
    ensures { samples.new ≡ samples_from (length samples.old) start }
{
    let mut s = start;
    for x in samples.iter_mut() {
        s = next(s);
        *x = sample(s);
    }
}

// The checks of test_image. Document 02, wish 4: "Checks are 1, then 3."
fn image_checks(height: usize, width: usize, samples: &[u16]) -> Result<(), Refusal>
    ensures { answer_of result ≡ image_refusal height width samples.now }
{
    if !places::checks::are_sides(height, width) {
        return Err(Refusal::Side);
    }
    if samples.len() != width * height {
        return Err(Refusal::Frame);
    }
    Ok(())
}

// Writes the test image of a start, down columns; every start is good. The contract carries the laws of the generator too.
// Two wrong answers that the contract rules out: the sample of the old state, so that from 0 the first is 0; 3 for 4 by 6 with no samples.
pub fn test_image(
    height: usize,
    width: usize,
    start: u32,
    samples: &mut [u16],
) -> Result<(), Refusal>
    ensures { Generated height width start samples.old samples.new (answer_of result) × GeneratorLaws }
{
    image_checks(height, width, samples)?;
    fill(start, samples);
    Ok(())
}
