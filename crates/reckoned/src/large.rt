// The largest picture: 512 by 512 with 8 levels, which has 21,845 blocks. Its sheet is written; to decompose it the second implementation, which counts
// the earlier choices anew for each covering of each block, would take thousands of millions of steps.
use cases::answers::{Pair, compare, of_coder, of_plain};
use cases::safe::{first, store};
use pairs::answers::{put, tell_one};
use std::io;

// Both write the sheet, which has 220,723 bytes and the line of the value.
fn both_write(plane: &[i64], coverings: &[u8]) -> Pair<usize> {
    compare(
        [b'?'; 220800],
        |buffer| of_coder(sheet::write(512, 512, 8, plane, coverings, buffer)),
        |buffer| of_plain(plain_text::writing::write(512, 512, 8, plane, coverings, buffer)),
    )
}

// The sheet of a plane that holds one value among zeros, with so many coverings.
fn write(rt: &impl Print, at: usize, value: i64, coverings: usize) -> io::Result<()> {
    put(rt, b"height ", 512)?;
    put(rt, b"width ", 512)?;
    put(rt, b"levels ", 8)?;
    put(rt, b"coverings ", coverings)?;
    put(rt, b"place ", at)?;
    put(rt, b"value ", value)?;
    let mut plane = [0i64; 262144];
    store(&mut plane, at, value);
    let covers = [1u8; 21846];
    tell_one(rt, b"write", both_write(&plane, first(&covers, coverings)))
}

// As many coverings as blocks, one less and one more.
pub fn blocks(rt: &impl Print) -> io::Result<()> {
    write(rt, 0, 0, 21844)?;
    write(rt, 0, 0, 21845)?;
    write(rt, 0, 0, 21846)
}

// The ranges of the deepest level, at the first place of bands 0 and 1: low-pass to 4,095 times 65,536, W to 8,190 times 16,384.
pub fn ranges(rt: &impl Print) -> io::Result<()> {
    write(rt, 0, 268369920, 21845)?;
    write(rt, 0, 268369921, 21845)?;
    write(rt, 1024, 134184960, 21845)?;
    write(rt, 1024, 134184961, 21845)?;
    write(rt, 1024, -134184960, 21845)?;
    write(rt, 1024, -134184961, 21845)
}
