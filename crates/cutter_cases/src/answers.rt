// The two cutters on one text.
use cases::safe::{first, plus, times};

// The numbers that the two gave, 0 for a sheet; and whether they printed the same.
#[derive(Clone, Copy)]
pub struct Answers {
    pub ours: usize,
    pub plain: usize,
    pub same: bool,
}

// The number of a printed refusal, which stands behind its first eight bytes; 0 for any other text.
fn number_in(out: &[u8]) -> usize {
    if !out.starts_with(b"r") {
        return 0;
    }
    out.iter().skip(8).take_while(|b| b.is_ascii_digit()).fold(
        0,
        |n, b| plus(times(n, 10), (*b as usize).saturating_sub(48)),
    )
}

// Both print.
pub fn both(text: &[u8]) -> Answers {
    let mut out = [0; 65536];
    let mut out2 = [0; 65536];
    let n = cutting::cut(text, &mut out);
    let m = plain_cutter::cutter(text, &mut out2);
    let ours = first(&out, n);
    let plain = first(&out2, m);
    Answers {
        ours: number_in(ours),
        plain: number_in(plain),
        same: ours == plain,
    }
}

// The number that both gave, where they printed the same.
pub fn answer(text: &[u8]) -> Option<usize> {
    let a = both(text);
    a.same.then_some(a.ours)
}
