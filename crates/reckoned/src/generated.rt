// Test images, by the generator and by the plain second implementation.
use cases::answers::{Pair, compare, of_coder, of_plain};
use cases::safe::{first_mut, load};
use pairs::answers::{put, tell_one};
use std::io;

// Both write into n places. There is room for 512 by 512, and one place more.
fn both(height: usize, width: usize, start: u32, n: usize) -> Pair<()> {
    compare(
        [9; 262145],
        |s| of_coder(generator::test_image(height, width, start, first_mut(s, n))),
        |s| of_plain(plain::generated::test_image(height, width, start, first_mut(s, n))),
    )
}

fn image(rt: &impl Print, height: usize, width: usize, start: u32, n: usize) -> io::Result<()> {
    put(rt, b"height ", height)?;
    put(rt, b"width ", width)?;
    put(rt, b"start ", start)?;
    put(rt, b"samples ", n)?;
    tell_one(rt, b"test image", both(height, width, start, n))
}

// Document 02, wish 4: "From 0 the first sample is 966."
pub fn first(rt: &impl Print) -> io::Result<()> {
    image(rt, 4, 4, 0, 16)?;
    let mut samples = [9u16; 16];
    let _ = generator::test_image(4, 4, 0, &mut samples);
    let sample = load(&samples, 0);
    println!(rt; "first sample from 0: {sample}")
}

// Heights and widths, each with what lies past it. A good one with too few samples is 3, so that it has passed 1; a bad one with too few is 1.
pub fn sides(rt: &impl Print) -> io::Result<()> {
    image(rt, 2, 4, 0, 8)?;
    image(rt, 4, 2, 0, 8)?;
    image(rt, 6, 4, 0, 24)?;
    image(rt, 4, 6, 0, 0)?;
    image(rt, 512, 4, 0, 16)?;
    image(rt, 4, 512, 0, 16)?;
    image(rt, 1024, 4, 0, 16)?;
    image(rt, 4, 1024, 0, 16)?;
    image(rt, 4294967300, 4, 0, 16)?;
    image(rt, 4, 4294967300, 0, 16)
}

// Samples as many as height times width, one less and one more; and the largest starts, which are as good as others.
pub fn lengths(rt: &impl Print) -> io::Result<()> {
    image(rt, 4, 4, 2147483647, 15)?;
    image(rt, 4, 4, 2147483648, 16)?;
    image(rt, 4, 4, 4294967295, 17)?;
    image(rt, 4, 8, 1, 31)?;
    image(rt, 4, 8, 4294967295, 32)?;
    image(rt, 4, 8, 1, 33)?;
    image(rt, 16, 4, 1, 16)?;
    image(rt, 16, 4, 1, 64)?;
    image(rt, 16, 4, 1, 65)?;
    image(rt, 4, 512, 1, 2048)?;
    image(rt, 512, 4, 1, 2048)?;
    image(rt, 512, 512, 1, 262143)?;
    image(rt, 512, 512, 1, 262144)?;
    image(rt, 512, 512, 1, 262145)
}
