// Sums, products and places that cannot fail: outside the range that accepted work needs, the answer is 0 and a store does nothing. `add`, `opposite`, `size` and
// `signed` answer 0 only where the result is 0 or would not fit.

pub fn plus(a: usize, b: usize) -> usize {
    if a < 4611686018427387904 && b < 4611686018427387904 {
        a + b
    } else {
        0
    }
}

pub fn times(a: usize, b: usize) -> usize {
    if a < 2147483648 && b < 2147483648 {
        a * b
    } else {
        0
    }
}

pub fn over(a: usize, b: usize) -> usize {
    a.checked_div(b).unwrap_or(0)
}

pub fn rest(a: usize, b: usize) -> usize {
    a.checked_rem(b).unwrap_or(0)
}

// What stands at a place, or this where there is no such place.
pub fn at<T: Copy>(s: &[T], i: usize, or: T) -> T {
    if i < s.len() { s[i] } else { or }
}

pub fn put<T: Copy>(s: &mut [T], i: usize, v: T) {
    if i < s.len() {
        s[i] = v;
    }
}

pub fn put_sample(s: &mut [u16], i: usize, v: usize) {
    if let Ok(sample) = u16::try_from(v) {
        put(s, i, sample);
    }
}

pub fn add(a: i64, b: i64) -> i64 {
    a.checked_add(b).unwrap_or(0)
}

pub fn opposite(a: i64) -> i64 {
    a.checked_neg().unwrap_or(0)
}

pub fn size(a: i64) -> usize {
    a.unsigned_abs() as usize
}

pub fn signed(a: usize) -> i64 {
    i64::try_from(a).unwrap_or(0)
}
