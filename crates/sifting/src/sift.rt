// The pass along the tetrolet entries in plane order that stores 0 at those that go.
ghost use Rattle.std.specs.Prelude.{◌≡◌, cond, pos};
ghost use Rattle.sifting.specs.Sifting.{Ready, Sifted};

use crate::tally::Tally;

// What is stored: the entry, or 0.
fn stored(stays: bool, v: i64) -> i64
    ensures { result ≡ cond stays v (pos 0) }
{
    if stays {
        return v;
    }
    0
}

// Leaves the tetrolet entries not zero whose rank is above `limit`, and the first `ties` of those that rank `limit`; gives how many are left.
// Two wrong answers that the contract rules out: the last of those that rank `limit` left instead of the first; the count of those before the pass.
pub fn sift(height: u32, width: u32, levels: u32, plane: &mut [i64], limit: u64, ties: u64) -> usize
    requires { Ready height width levels plane.old }
    ensures { Sifted levels height width limit ties plane.old plane.new result }
{
    let mut tally = Tally {
        limit,
        left: ties,
        count: 0,
        stays: false,
    };
    let mut k = places::walk::first_tetrolet(height, width, levels);
    while 0 < k.left {
        let i = places::checks::index_of(k, height, width);
        let v = plane[i];
        let r = crate::ranks::rank_of(v, levels, k.level);
        tally = tally.entry(r);
        plane[i] = stored(tally.stays, v);
        k = places::walk::step(k, height, width);
    }
    tally.count
}
