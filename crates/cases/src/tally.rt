// What is counted of a group, how two answers are compared, and the line that tells a group.
use crate::inputs::Case;
use crate::safe::plus;
use std::{fmt, io};

// The cases of a group, those that both accept, and those on which the two differ; and of the cases and of the accepted ones how many were strips: pictures
// whose height is not their width.
#[derive(Clone, Copy, Default)]
pub struct Tally {
    pub cases: usize,
    pub accepted: usize,
    pub differing: usize,
    pub strips: usize,
    pub accepted_strips: usize,
}

// How two answers to a case compare: both accept and give the same, both refuse alike, or they differ.
#[derive(Clone, Copy, PartialEq, Eq)]
pub enum Verdict {
    Accepted,
    Refused,
    Differs,
}

impl Tally {
    // One case more.
    pub fn count(&mut self, v: Verdict) {
        self.cases = plus(self.cases, 1);
        match v {
            Verdict::Accepted => self.accepted = plus(self.accepted, 1),
            Verdict::Refused => {}
            Verdict::Differs => self.differing = plus(self.differing, 1),
        }
    }

    // The same for a case with a height and a width.
    pub fn count_case(&mut self, k: Case, v: Verdict) {
        self.count(v);
        if k.height != k.width {
            self.strips = plus(self.strips, 1);
            if v == Verdict::Accepted {
                self.accepted_strips = plus(self.accepted_strips, 1);
            }
        }
    }

    // So many cases, each compared by its number.
    pub fn of_numbers<F: FnMut(usize) -> Verdict>(cases: usize, mut compare: F) -> Tally
        requires { F.IsAlwaysCallable compare }
    {
        let mut t = Tally::default();
        for c in 0..cases {
            t.count(compare(c));
        }
        t
    }

    // The same for cases with a height and a width.
    pub fn of_cases<F: FnMut(usize) -> (Case, Verdict)>(cases: usize, mut compare: F) -> Tally
        requires { F.IsAlwaysCallable compare }
    {
        let mut t = Tally::default();
        for c in 0..cases {
            let (k, v) = compare(c);
            t.count_case(k, v);
        }
        t
    }
}

// Whether the two agree everywhere, or on how many cases they differ.
#[derive(Clone, Copy)]
pub struct Differing(pub usize);

impl fmt::Display for Differing {
    fn fmt<W: fmt::Write>(&self, f: &mut fmt::Formatter<W>) -> fmt::Result {
        let Differing(n) = *self;
        if n == 0 {
            write!(f, "ok")
        } else {
            write!(f, "differs {n}")
        }
    }
}

// How many cases, how many of them both accept, how many of each were strips, and whether the two agree everywhere.
impl fmt::Display for Tally {
    fn fmt<W: fmt::Write>(&self, f: &mut fmt::Formatter<W>) -> fmt::Result {
        let Tally {
            cases,
            accepted,
            differing,
            strips,
            accepted_strips,
        } = *self;
        let end = Differing(differing);
        write!(
            f,
            "{cases} accepted {accepted}, strips {strips} accepted {accepted_strips} {end}"
        )
    }
}

// Prints the line of a group without heights and widths: its name, how many cases, how many of them both accept, and whether the two agree everywhere.
pub fn tell_list(rt: &impl Print, name: &[u8], t: Tally) -> io::Result<()> {
    rt.write_all(name)?;
    println!(rt;
        " {} accepted {} {}",
        t.cases,
        t.accepted,
        Differing(t.differing)
    )
}

// The same for a group of pictures or planes, and how many of the cases and of the accepted ones were strips.
pub fn tell(rt: &impl Print, name: &[u8], t: Tally) -> io::Result<()> {
    rt.write_all(name)?;
    println!(rt; " {t}")
}
