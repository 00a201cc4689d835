// Decomposing by given coverings: one block, one level, all levels, in the slice that holds the image. Nothing is chosen and nothing is counted. The walk over
// the blocks and the descent over the levels are those of `analysis`, whose lemmas are for any coverings. It serves the smoothing step and is no entry.
#![tactic(auto)]

ghost use Rattle.std.specs.Prelude.{◌≡◌, ◌+◌, ◌*◌, ◌/◌, ◌<◌, ◌≤◌, length};
ghost use Rattle.slices.specs.Stores.{scatter};
ghost use Rattle.coverings.specs.Rule.{Number};
ghost use Rattle.pyramid.specs.Plane.{Fits, blocks, all_blocks, Numbers, after, listed, analyse};
ghost use Rattle.pyramid.specs.Slices.{image_of, slice_of};
ghost use Rattle.grid.specs.Grid.{band_place, starts_of};
ghost use Rattle.analysis.specs.Analysis.{Region, Small, result_of, Banded};
ghost use Rattle.given.specs.Given.{Modest};

// One block of a level: its results by a given covering, stored in the four bands.
fn block_by(
    image: &[i64],
    height: usize,
    tall: usize,
    wide: usize,
    i: usize,
    j: usize,
    covering: u8,
    out: &mut [i64],
)
    requires number { Number covering }
    requires region { Region height tall wide (length image.now) (length out.old) × (i < tall / 4) × (j < wide / 4) × Small tall wide (image_of height image.now) }
    ensures { out.new ≡ scatter (band_place height (starts_of height tall wide i j)) (result_of covering (image_of height image.now) i j) 16 out.old }
{
    let start = j * 4 * height + i * 4;
    let v = grid::cells_of(image, height, start);
    let results = kernel::transform::forward(covering, v);
    let begin = grid::starts(height, tall, wide, i, j);
    grid::put_results(out, height, begin, results);
}

// One level: the bands in the region, by the coverings from `first` on.
fn level_by(
    image: &[i64],
    height: usize,
    tall: usize,
    wide: usize,
    first: usize,
    coverings: &[u8],
    out: &mut [i64],
)
    requires numbers { Numbers (blocks tall wide) (after first (listed coverings.now)) }
    requires region { Region height tall wide (length image.now) (length out.old) × (first + blocks tall wide ≤ length coverings.now) × Small tall wide (image_of height image.now) }
    ensures { Banded height tall wide (after first (listed coverings.now)) (image_of height image.now) out.new }
{
    for j in 0..wide / 4 {
        for i in 0..tall / 4 {
            let covering = coverings[first + (j * (tall / 4) + i)];
            block_by(image, height, tall, wide, i, j, covering, out);
        }
    }
}

// All levels: the image becomes its plane by the coverings. `work` is a slice as long, which is overwritten.
// Two wrong answers that the contract rules out: the last level left out; and the first level's coverings for all of them.
pub fn decompose_by(
    height: usize,
    width: usize,
    levels: usize,
    coverings: &[u8],
    image: &mut [i64],
    work: &mut [i64],
)
    requires fits { Fits levels height width × (levels ≤ 8) × (height ≤ 512) × (width ≤ 512) }
    requires coverings_len { (length coverings.now ≡ all_blocks levels height width) × (length image.old ≡ width * height) × (length work.old ≡ width * height) }
    requires numbers { Numbers (all_blocks levels height width) (listed coverings.now) × Modest height width (image_of height image.old) }
    ensures { image.new ≡ slice_of height width (analyse levels height width (listed coverings.now) (image_of height image.old)) }
{
    let mut tall = height;
    let mut wide = width;
    let mut first: usize = 0;
    for _ in 0..levels {
        level_by(image, height, tall, wide, first, coverings, work);
        slices::copy_rectangle(work, image, height, tall, wide);
        first += wide / 4 * (tall / 4);
        tall /= 2;
        wide /= 2;
    }
}
