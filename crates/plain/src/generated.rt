// The test image of a start.
use plain_frame::frame::Frame;
use plain_frame::refusal::Refusal;

// The next state, by a product of 64 bits.
fn step(s: u32) -> u32 {
    ((u64::from(s) * 1664525 + 1013904223) % 4294967296) as u32
}

// Check 1 is that of a picture with one level, which every height and width allow; then check 3.
pub fn test_image(
    height: usize,
    width: usize,
    start: u32,
    samples: &mut [u16],
) -> Result<(), Refusal> {
    let frame = Frame::new(height, width, 1);
    frame.check()?;
    Refusal::Length.unless(samples.len() == frame.area())?;
    let mut state = start;
    for sample in samples {
        state = step(state);
        *sample = (state / 1048576) as u16;
    }
    Ok(())
}
