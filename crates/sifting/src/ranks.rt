// The ranks of the tetrolet entries, and the rank at which keep begins to drop entries, found by counting ranks in runs.
ghost use Rattle.std.specs.Prelude.{◌≡◌, true, ℕ, ◌+◌, ◌*◌, ◌-◌, ◌/◌, ◌^◌, ◌<◌, ◌≤◌, nat_abs, length};
ghost use Rattle.pyramid.specs.Sides.{is_sides, is_depth};
ghost use Rattle.pyramid.specs.Places.{tetrolet_places};
ghost use Rattle.pyramid.specs.Slices.{image_of};
ghost use Rattle.quota.specs.Quota.{ranks, quota_limit};
ghost use Rattle.sifting.specs.Sifting.{Ready, Limit, Small, Zeros, OneMore, RunCounts, Inside};

// 2 to the power r. Two wrong answers that the contract rules out: 0 for r 0, and 2 times r.
pub fn doubled(r: u32) -> u64
    requires { r ≤ 8 }
    ensures { result ≡ 2 ^ r }
{
    1 << r
}

// How many tetrolet entries a plane has. Two wrong answers that the contract rules out: the entries of one level; those of the low-pass too.
pub fn most_entries(height: u32, width: u32, levels: u32) -> u64
    requires { (is_sides height width ≡ true) × (is_depth levels height width ≡ true) }
    ensures { (result ≡ quota_limit height width levels) × (result ≡ length (tetrolet_places levels height width)) }
{
    let area = (width * height) as u64;
    area - area / places::checks::power(levels)
}

// The rank of an entry of this level. Document 01: "rank is |W| times 2^(R-r)".
// Two wrong answers that the contract rules out: the absolute value itself; a rank that grows with the level.
pub fn rank_of(v: i64, levels: u32, level: u32) -> u64
    requires levels_bound { (levels ≤ 8) × (1 ≤ level) × (level ≤ levels) }
    requires v_bound { nat_abs v ≤ 2 * 4 ^ (level - 1) * 4095 }
    ensures { (result ≡ nat_abs v * 2 ^ (levels - level)) × (result < 134217728) }
{
    let m = integers::magnitude(v);
    m * doubled(levels - level)
}

// One entry more in the counts of 512 runs of 2^shift ranks from `base` on: the count of the run that the rank is in.
fn count_rank(counts: &mut [u32; 512], rank: u64, base: u64, shift: u64)
    requires small { Small counts.old }
    requires shift_bound { shift ≤ 18 }
    ensures { OneMore counts.old counts.new base (2 ^ shift) rank }
{
    if rank < base {
        return;
    }
    let run = ((rank - base) >> shift) as usize;
    if run < 512 {
        counts[run] += 1;
    }
}

// How many tetrolet entries rank in each of 512 runs of 2^shift ranks from `base` on.
// Kept: a `for` would count a second time what the place of the walk says is left, here and in `sift`.
fn count_runs(
    height: u32,
    width: u32,
    levels: u32,
    plane: &[i64],
    base: u64,
    shift: u64,
    counts: &mut [u32; 512],
)
    requires ready { Ready height width levels plane.now }
    requires shift_bound { (shift ≤ 18) × Zeros counts.old }
    ensures { RunCounts (ranks levels height width (image_of height plane.now)) base (2 ^ shift) counts.new }
{
    let mut k = places::walk::first_tetrolet(height, width, levels);
    while 0 < k.left {
        let i = places::checks::index_of(k, height, width);
        let v = plane[i];
        let r = rank_of(v, levels, k.level);
        count_rank(counts, r, base, shift);
        k = places::walk::step(k, height, width);
    }
}

// Where the limit is: at `base` or behind it, with `over` ranks behind the run that begins there.
#[derive(Drop)]
pub struct Found {
    pub base: u64,
    pub over: u64,
}

// Finds the limit to a run of `step` ranks, 2^shift, among the 512 runs from `base` on.
fn narrowed(
    height: u32,
    width: u32,
    levels: u32,
    plane: &[i64],
    at: Found,
    shift: u64,
    step: u64,
    quota: u64,
) -> Found
    requires ready { Ready height width levels plane.now }
    requires shift_bound { (shift ≤ 18) × (step ≡ 2 ^ shift) × (at.base + 512 * step ≤ 134217728) }
    requires inside { Inside (ranks levels height width (image_of height plane.now)) quota (512 * step) at }
    ensures inside_2 { Inside (ranks levels height width (image_of height plane.now)) quota step result }
    ensures step_bound { result.base + step ≤ at.base + 512 * step }
{
    let base = at.base;
    let mut counts = [0u32; 512];
    count_runs(height, width, levels, plane, base, shift, &mut counts);
    let mut total = at.over;
    for j in (1..512usize).rev() {
        let more = total + counts[j] as u64;
        if quota < more {
            return Found {
                base: base + (j as u64) * step,
                over: total,
            };
        }
        total = more;
    }
    Found { base, over: total }
}

// The rank at which keep begins to drop entries: the least with at most `quota` ranks above it, found by its three digits to the base 512;
// and how many ranks are above it.
// Two wrong answers that the contract rules out: a rank that leaves more than `quota` entries above it; one where a lesser rank would do.
pub fn limit_of(height: u32, width: u32, levels: u32, plane: &[i64], quota: u64) -> Found
    requires { Ready height width levels plane.now }
    ensures { Limit (ranks levels height width (image_of height plane.now)) quota result.base result.over }
{
    let all = Found { base: 0, over: 0 };
    let first = narrowed(height, width, levels, plane, all, 18, 262144, quota);
    let second = narrowed(height, width, levels, plane, first, 9, 512, quota);
    narrowed(height, width, levels, plane, second, 0, 1, quota)
}
