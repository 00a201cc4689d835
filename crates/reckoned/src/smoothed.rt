// One smoothing step, by the coder and by the plain second implementation: an example, the slices that it fills, and the limit of the step.
use cases::answers::{Answer, Pair, compare, of_coder, of_plain};
use cases::safe::{first, first_mut, load, store};
use pairs::answers::{end, put, tell, tell_one};
use pairs::planes::{Plane, plane_of, zeros};
use pairs::rooms::Room;
use std::io;

// A call: what is told of a plane, what it holds, the step, and the lengths of result and scratch.
#[derive(Clone, Copy)]
struct Step {
    frame: Plane,
    plane: [i64; 65],
    step: u64,
    result: usize,
    scratch: usize,
}

// Into slices as long as the plane.
fn step_of(k: Plane, step: u64) -> Step {
    Step {
        frame: k,
        plane: plane_of(k),
        step,
        result: k.plane,
        scratch: k.plane,
    }
}

fn smooth_step(s: &Step, room: &mut Room) -> Answer<()> {
    let k = s.frame;
    of_coder(smoothing::smooth(
        k.height,
        k.width,
        k.levels,
        first(&s.plane, k.plane),
        first(&[k.covering; 6], k.coverings),
        s.step,
        first_mut(&mut room.values, s.result),
        first_mut(&mut room.scratch, s.scratch),
    ))
}

fn smooth_plain(words: &[u8], s: &Step, room: &mut Room) -> Answer<()> {
    let k = s.frame;
    let mut gradient = [5; 65];
    let mut decomposed = gradient;
    let mut projected = gradient;
    of_plain(plain::smoothing::smooth(
        words,
        k.height,
        k.width,
        k.levels,
        first(&s.plane, k.plane),
        first(&[k.covering; 6], k.coverings),
        s.step,
        first_mut(&mut room.values, s.result),
        first_mut(&mut room.scratch, s.scratch),
        &mut gradient,
        &mut decomposed,
        &mut projected,
    ))
}

fn both(words: &[u8], s: &Step) -> Pair<()> {
    compare(
        Room::new(),
        |room| smooth_step(s, room),
        |room| smooth_plain(words, s, room),
    )
}

pub fn smooth(words: &[u8], k: Plane, step: u64) -> Pair<()> {
    both(words, &step_of(k, step))
}

// The first four values, which are column 0 at height 4.
fn put_column(rt: &impl Print, values: &[i64]) -> io::Result<()> {
    put(rt, b"column 0 ", load(values, 0))?;
    put(rt, b"", load(values, 1))?;
    put(rt, b"", load(values, 2))?;
    put(rt, b"", load(values, 3))
}

// Document 02, wish 11: "The result is 16 times Y minus p times G." 4 by 4 and 1 level, covering 1, whose piece 0 is column 0. Its low-pass and its W1 are 1, all
// else is 0: its numerators are 2 2 0 0, the gradient there is 2 4 -2 0, of which W2 is -4 and W3 is 0. Low-pass and W1 are spared, and so G is -4 4 -4 4.
pub fn example(rt: &impl Print, words: &[u8]) -> io::Result<()> {
    put(rt, b"height ", 4)?;
    put(rt, b"width ", 4)?;
    put(rt, b"levels ", 1)?;
    put(rt, b"step ", 3)?;
    let mut plane = [0i64; 65];
    store(&mut plane, 0, 1);
    store(&mut plane, 8, 1);
    let s = Step {
        plane,
        ..step_of(zeros(4, 4, 1, 16, 1), 3)
    };
    let agreed = tell(rt, true, b"smooth", both(words, &s))?;
    let mut room = Room::new();
    let _ = smooth_step(&s, &mut room);
    put_column(rt, &room.values)?;
    end(rt, agreed)
}

fn filled(rt: &impl Print, words: &[u8], res: usize, scratch: usize) -> io::Result<()> {
    put(rt, b"result ", res)?;
    put(rt, b"scratch ", scratch)?;
    let s = Step {
        result: res,
        scratch,
        ..step_of(zeros(4, 4, 1, 16, 1), 1)
    };
    tell_one(rt, b"smooth", both(words, &s))
}

// The slices that a step fills, at 4 by 4: each of its exact length, one place less and one more.
pub fn lengths(rt: &impl Print, words: &[u8]) -> io::Result<()> {
    filled(rt, words, 16, 16)?;
    filled(rt, words, 15, 16)?;
    filled(rt, words, 17, 16)?;
    filled(rt, words, 16, 15)?;
    filled(rt, words, 16, 17)
}

// A plane of this height and of width 4 with one block, in slices of this length.
fn limit(
    rt: &impl Print,
    words: &[u8],
    height: usize,
    levels: usize,
    plane: usize,
    covering: u8,
    value: i64,
    step: u64,
) -> io::Result<()> {
    put(rt, b"height ", height)?;
    put(rt, b"levels ", levels)?;
    put(rt, b"plane ", plane)?;
    put(rt, b"covering ", covering)?;
    put(rt, b"value ", value)?;
    put(rt, b"step ", step)?;
    let k = Plane {
        covering,
        value,
        ..zeros(height, 4, levels, plane, 1)
    };
    tell_one(rt, b"smooth", smooth(words, k, step))
}

// Steps up to the largest number; and one past the limit in calls that are refused before for another reason.
pub fn limits(rt: &impl Print, words: &[u8]) -> io::Result<()> {
    limit(rt, words, 4, 1, 16, 1, 1, 0)?;
    limit(rt, words, 4, 1, 16, 1, 1, 255)?;
    limit(rt, words, 4, 1, 16, 1, 1, 256)?;
    limit(rt, words, 4, 1, 16, 1, 1, 4294967296)?;
    limit(rt, words, 4, 1, 16, 1, 1, u64::MAX)?;
    limit(rt, words, 4, 1, 16, 1, -1, 256)?;
    limit(rt, words, 4, 1, 16, 118, -1, 256)?;
    limit(rt, words, 4, 1, 15, 118, -1, 256)?;
    limit(rt, words, 4, 2, 15, 118, -1, 256)?;
    limit(rt, words, 6, 2, 15, 118, -1, 256)
}
