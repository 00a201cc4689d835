// Reading an input to its end, part by part, each behind the bytes that are there. Where the bytes are known that a reader has left, as of a slice, the
// contracts say that these are the bytes that came. Of standard input no contract can say it.
ghost use Rattle.std.specs.Prelude.{◌<◌, ◌≤◌, length};
ghost use Rattle.intake.specs.Reading.{PartRead, PartGiven, InputRead, InputGiven};

use std::io::Read;

// What one read gave.
// Kept: four ways with a promise for each (`PartAt`, `PartGiven`), no Option or Result.
#[derive(Clone, Copy)]
pub enum Part {
    // Bytes came: the place past them.
    To(usize),
    // The input has ended.
    End,
    // There is no room behind the bytes that are there, and nothing was read.
    Full,
    // The read failed.
    Broken,
}

// Why reading stopped, with the number of bytes that are there.
// Kept: an input that ended and a full buffer are told apart (`InputAt`, `InputGiven`): no Option or Result.
#[derive(Clone, Copy)]
pub enum Input {
    // The input has ended.
    Ended(usize),
    // The buffer is full; the input may go on.
    Full(usize),
    // A read failed.
    Broken,
}

// The end of a part that begins at `done`: a read asks for at most 4,096 bytes, so that any longer input comes in several parts.
fn part_end(text: &[u8], done: usize) -> usize
    requires { done < length text.now }
    ensures { (done < result) × (result ≤ length text.now) }
{
    if text.len() - done <= 4096 {
        return text.len();
    }
    done + 4096
}

// One read behind the first `done` bytes of `text`, which stay as they are. It tells the place past what came, so that whoever reads on reads from there.
// Three wrong answers that the contract rules out: bytes put over those that are there; a place past the end of the buffer; and an end where bytes are left.
pub fn read_part<R: Read>(reader: &mut R, text: &mut [u8], done: usize) -> Part
    ensures part { PartRead done text.old text.new result }
    ensures given { PartGiven done (R.remaining reader.old) (R.remaining reader.new) text.new result }
{
    if text.len() <= done {
        return Part::Full;
    }
    let end = part_end(text, done);
    let got = reader.read(&mut text[done..end]);
    let Ok(more) = got else {
        return Part::Broken;
    };
    if more == 0 {
        return Part::End;
    }
    Part::To(done + more)
}

// Reads behind the first `start` bytes of `text` until the input ends or the buffer is full. Each part goes behind the one before it: only then is the place
// that `read_part` tells further on, and the loop shown to end. Three wrong answers that the contract rules out: a part put over the bytes that were there
// before the call; `Full` with fewer bytes than the buffer has; and `Ended` where the reader has bytes left, if they are known.
pub fn read_input<R: Read>(reader: &mut R, text: &mut [u8], start: usize) -> Input
    ensures input { InputRead start text.old text.new result }
    ensures given { InputGiven start (R.remaining reader.old) (R.remaining reader.new) text.new result }
{
    let mut done = start;
    loop {
        let part = read_part(reader, text, done);
        match part {
            Part::To(next) => done = next,
            Part::End => return Input::Ended(done),
            Part::Full => return Input::Full(done),
            Part::Broken => return Input::Broken,
        }
    }
}
