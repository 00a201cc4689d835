// Masters: which numerators are 4^R times a whole number from 0 to 4,095, what is proved of them, and the test of all numerators of a plane. The test finds
// the blocks by value, from the last level down, and looks at those of the first; nothing is lent to it that it could store to.
#![tactic(auto)]

ghost use Rattle.std.specs.Prelude.{◌≡◌, ◌↔◌, ◌-◌, ◌/◌, ◌^◌, ◌<◌, ◌≤◌, T, length};
ghost use Rattle.integers.specs.Lists.{every};
ghost use Rattle.pyramid.specs.Plane.{halved};
ghost use Rattle.pyramid.specs.Behind.{quad_of};
ghost use Rattle.synthesis.specs.Synthesis.{Restorable};
ghost use Rattle.blockwise.specs.Node.{Block, behind};
ghost use Rattle.blockwise.specs.Cells.{AllIn};
ghost use Rattle.masters.specs.Whole.{is_whole, are_whole};
ghost use Rattle.masters.specs.Laws.{WholeLaws};
ghost use Rattle.masters.specs.Cells.{WholeCell, AllAlong};

use blockwise::Node;

// The largest sample of a master. Its contract has the laws of whole numerators, which are so a part of what the check proves.
pub fn whitest() -> u64
    ensures { (result ≡ 4095) × WholeLaws }
{
    4095
}

// Whether a numerator is 4^R times a whole number from 0 to 4,095. `unit` is 4^R.
// Two wrong answers that the contract rules out: yes for a number below zero; and yes for 4^R times 4,096.
fn is_whole(y: i64, levels: usize, unit: u64) -> bool
    requires { (levels ≤ 8) × (unit ≡ 4 ^ levels) }
    ensures { result ≡ is_whole levels y }
{
    if y < 0 {
        return false;
    }
    let n = y as u64;
    let q = n >> (2 * levels);
    if whitest() < q {
        return false;
    }
    q * unit == n
}

// Whether sixteen numerators are whole.
fn sixteen_whole(v: &[i64; 16], levels: usize, unit: u64) -> bool
    requires { (levels ≤ 8) × (unit ≡ 4 ^ levels) × (length v.now ≡ 16) }
    ensures { result ≡ every (is_whole levels) v.now }
{
    v.iter().all(|y| is_whole(*y, levels, unit))
}

// Whether the numerators of a block are whole: its values at the first level, in the order of its pieces, which does not matter; and those of its four blocks
// below at any other.
// Two wrong answers that the contract rules out: yes by the values of a deeper level; and yes where one block below was left out.
fn whole_in(plane: &[i64], coverings: &[u8], k: Node, low: [i64; 4], unit: u64) -> bool
    requires restorable { Restorable k.levels k.height k.width coverings.now plane.now × Block k × (unit ≡ 4 ^ k.levels) }
    requires low_value { low ≡ quad_of (behind k k.level coverings.now plane.now) k.i k.j }
    ensures { T result ↔ AllIn (k.level - 1) (WholeCell k.levels k.height k.width coverings.now plane.now) k.i k.j }
{
    let results = blockwise::results(plane, k, low);
    let pieces = kernel::transform::by_labels(results);
    if k.level == 1 {
        return sixteen_whole(&pieces, k.levels, unit);
    }
    let v = blockwise::values(coverings, k, pieces);
    for q in 0..4 {
        let below = blockwise::child(k, q);
        let quad = blockwise::quarter(v, q);
        if !whole_in(plane, coverings, below, quad, unit) {
            return false;
        }
    }
    true
}

// Whether the numerators of block column j of the last level are whole.
fn column_whole(
    height: usize,
    width: usize,
    levels: usize,
    plane: &[i64],
    coverings: &[u8],
    j: usize,
    unit: u64,
) -> bool
    requires restorable { Restorable levels height width coverings.now plane.now }
    requires j_bound { (j < halved (levels - 1) width / 4) × (unit ≡ 4 ^ levels) }
    ensures { T result ↔ AllAlong (levels - 1) (WholeCell levels height width coverings.now plane.now) height j }
{
    let tall = height >> (levels - 1);
    for i in 0..tall / 4 {
        let k = blockwise::first_node(levels, height, width, coverings.len(), i, j);
        let low = blockwise::last(plane, height, i, j);
        if !whole_in(plane, coverings, k, low, unit) {
            return false;
        }
    }
    true
}

// Whether every numerator of a plane is whole.
// Two wrong answers that the contract rules out: yes where the last block column was left out; and no for a master that has odd coefficients.
pub fn all_whole(
    height: usize,
    width: usize,
    levels: usize,
    plane: &[i64],
    coverings: &[u8],
) -> bool
    requires { Restorable levels height width coverings.now plane.now }
    ensures { result ≡ are_whole levels height width coverings.now plane.now }
{
    let unit = synthesis::power(levels);
    let wide = width >> (levels - 1);
    for j in 0..wide / 4 {
        if !column_whole(height, width, levels, plane, coverings, j, unit) {
            return false;
        }
    }
    true
}
