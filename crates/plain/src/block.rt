// One block: the values of a piece, the cost of a covering, the labels of its pieces.
use crate::tiles::piece_at;
use plain_frame::frame::{Extent, Spot};
use plain_frame::safe::{add, at, opposite, plus, put, size, times};

// Where a block stands in a plane of this extent: its upper left cell is at (top, left).
#[derive(Clone, Copy)]
pub struct Corner {
    pub extent: Extent,
    pub top: usize,
    pub left: usize,
}

impl Corner {
    // The corner of the block at this place.
    pub fn of(extent: Extent, p: Spot) -> Corner {
        Corner {
            extent,
            top: times(4, p.row),
            left: times(4, p.col),
        }
    }

    // Where a cell of the block stands in the plane.
    pub fn cell(self, cell: usize) -> usize {
        let row = plus(self.top, cell % 4);
        let col = plus(self.left, cell / 4);
        self.extent.cell(row, col)
    }
}

// The four sign rows.
pub fn signs(values: [i64; 4]) -> [i64; 4] {
    let [a, b, c, d] = values;
    let sum = add(a, b);
    let difference = add(a, opposite(b));
    let sum2 = add(c, d);
    let difference2 = add(c, opposite(d));
    [
        add(sum, sum2),
        add(sum, opposite(sum2)),
        add(difference, difference2),
        add(difference, opposite(difference2)),
    ]
}

fn piece_values(words: &[u8], covering: u8, piece: u8, image: &[i64], corner: Corner) -> [i64; 4] {
    let mut values = [0i64; 4];
    let mut met: usize = 0;
    for cell in 0usize..16 {
        if piece_at(words, covering, cell) == piece {
            put(&mut values, met, at(image, corner.cell(cell), 0));
            met = plus(met, 1).min(3);
        }
    }
    values
}

// The low-pass and the three tetrolet coefficients of a piece.
pub fn piece_result(
    words: &[u8],
    covering: u8,
    piece: u8,
    image: &[i64],
    corner: Corner,
) -> [i64; 4] {
    signs(piece_values(words, covering, piece, image, corner))
}

// The sizes of the tetrolet coefficients of the four pieces.
pub fn cost(words: &[u8], covering: u8, image: &[i64], corner: Corner) -> usize {
    let mut sum: usize = 0;
    for piece in 0u8..4 {
        let [_, b, c, d] = piece_result(words, covering, piece, image, corner);
        sum = plus(sum, plus(size(b), plus(size(c), size(d))));
    }
    sum
}

// A list of four labels is a number below 256, two bits for a label, that of piece 0 in front.
pub fn label(labels: u32, piece: u8) -> u32 {
    match piece {
        0 => (labels >> 6) & 3,
        1 => (labels >> 4) & 3,
        2 => (labels >> 2) & 3,
        _ => labels & 3,
    }
}

fn is_labelling(labels: u32) -> bool {
    let a = label(labels, 0);
    let b = label(labels, 1);
    let c = label(labels, 2);
    let d = label(labels, 3);
    a != b && a != c && a != d && b != c && b != d && c != d
}

// The label of the square that a cell lies in.
fn square_label(cell: usize) -> u32 {
    match (cell < 8, cell % 4 < 2) {
        (true, true) => 0,
        (true, false) => 1,
        (false, true) => 2,
        (false, false) => 3,
    }
}

// The number of cells whose label is not that of their square.
fn misses(words: &[u8], covering: u8, labels: u32) -> usize {
    (0usize..16)
        .filter(|cell| label(labels, piece_at(words, covering, *cell)) != square_label(*cell))
        .count()
}

// The best of the 24 labellings: fewest misses, then the smallest list.
pub fn best_labels(words: &[u8], covering: u8) -> u32 {
    (0u32..256)
        .filter(|labels| is_labelling(*labels))
        .min_by_key(|labels| misses(words, covering, *labels))
        .unwrap_or(0)
}
