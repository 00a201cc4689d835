// Ranges: whether each entry of a plane is in its range, check 6. A level's tetrolet coefficients have one bound and fill two rectangles, the low-pass has
// another and fills one; a rectangle is looked at column by column. That this is what the definition asks of each place is in proofs/Levels.antt.
#![tactic(auto)]

ghost use Rattle.std.specs.Prelude.{◌≡◌, true, false, ◌↔◌, ◌+◌, ◌*◌, ◌^◌, ◌≤◌, T, length};
ghost use Rattle.slices.specs.Stores.{Room};
ghost use Rattle.pyramid.specs.Sides.{is_sides, is_depth};
ghost use Rattle.pyramid.specs.Slices.{image_of};
ghost use Rattle.pyramid.specs.Ranges.{in_range};
ghost use Rattle.ranges.specs.Bounds.{Bounded, Run, Rectangle};

// 1 for an entry that is more than `most` away from zero, and else 0: no test, so that several entries go at once.
fn over(v: i64, most: u64) -> u64
    requires { most ≤ 2 ^ 40 }
    ensures { (result ≤ 1) × ((result ≡ 0) ↔ Bounded false most v) }
{
    (integers::magnitude(v) + (9223372036854775807 - most)) / 9223372036854775808
}

// Whether each of a run of tetrolet coefficients is at most `most` away from zero.
fn run_within(run: &[i64], most: u64) -> bool
    requires { (length run.now ≤ 512) × (most ≤ 2 ^ 40) }
    ensures { T result ↔ Run false most run.now 0 (length run.now) }
{
    let mut beyond: u64 = 0;
    for v in run {
        beyond += over(*v, most);
    }
    beyond == 0
}

// Whether an entry is from 0 to `most`.
fn is_low(v: i64, most: u64) -> bool
    ensures { T result ↔ Bounded true most v }
{
    if v < 0 {
        return false;
    }
    integers::magnitude(v) <= most
}

// Whether each of a run of low-pass entries is from 0 to `most`.
fn run_low(run: &[i64], most: u64) -> bool
    ensures { T result ↔ Run true most run.now 0 (length run.now) }
{
    run.iter().all(|v| is_low(*v, most))
}

// Either of the two.
// Kept: one flag and one `if`; a closure in its place makes each of the three calls of `rectangle_bounded` longer.
fn run_bounded(run: &[i64], most: u64, low: bool) -> bool
    requires { (length run.now ≤ 512) × (most ≤ 2 ^ 40) }
    ensures { T result ↔ Run low most run.now 0 (length run.now) }
{
    if low {
        run_low(run, most)
    } else {
        run_within(run, most)
    }
}

// Whether each entry of a rectangle is in its bounds.
// Two wrong answers that the contract rules out: yes where only the first column is looked at; no for an entry beside the rectangle.
fn rectangle_bounded(
    plane: &[i64],
    first: usize,
    height: usize,
    tall: usize,
    wide: usize,
    most: u64,
    low: bool,
) -> bool
    requires { Room height tall wide first (length plane.now) × (tall ≤ 512) × (most ≤ 2 ^ 40) }
    ensures { T result ↔ Rectangle low most plane.now height first tall wide }
{
    for c in 0..wide {
        let start = first + c * height;
        if !run_bounded(&plane[start..start + tall], most, low) {
            return false;
        }
    }
    true
}

// Whether each entry of a plane is in its range. Of each level the right half is whole columns, bands 1 and 3; below the low-pass is band 2; after the last
// level the low-pass is left.
// Two wrong answers that the contract rules out: no for a low-pass entry of 4,095 times 4^R; yes for a negative one.
pub fn in_range(plane: &[i64], height: u32, width: u32, levels: u32) -> bool
    requires width_value { (is_sides height width ≡ true) × (is_depth levels height width ≡ true) }
    requires plane_len { length plane.now ≡ width * height }
    ensures { result ≡ in_range levels height width (image_of height plane.now) }
{
    let h = height as usize;
    let mut tall = h;
    let mut wide = width as usize;
    let mut most: u64 = 8190;
    for _ in 0..levels {
        let low = tall / 2;
        let half = wide / 2;
        if !rectangle_bounded(plane, half * h, h, tall, half, most, false) {
            return false;
        }
        if !rectangle_bounded(plane, low, h, low, half, most, false) {
            return false;
        }
        tall = low;
        wide = half;
        most *= 4;
    }
    rectangle_bounded(plane, 0, h, tall, wide, most / 2, true)
}
