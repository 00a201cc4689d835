// Sums and places that cannot fail: outside the range that the program needs, the answer is 0 and a store does nothing.

pub fn plus(a: usize, b: usize) -> usize {
    if a < 1000000000 && b < 1000000000 {
        a + b
    } else {
        0
    }
}

pub fn times(a: usize, b: usize) -> usize {
    if a < 1000000 && b < 1000000 { a * b } else { 0 }
}

pub fn rest(a: usize, b: usize) -> usize {
    a.checked_rem(b).unwrap_or(0)
}

pub fn over(a: usize, b: usize) -> usize {
    a.checked_div(b).unwrap_or(0)
}

// What stands at a place.
pub fn load<T: Copy + Default>(s: &[T], i: usize) -> T {
    s.get(i).copied().unwrap_or_default()
}

// Puts a number at a place, where the place can hold it.
pub fn store<V, T: TryFrom<V> + Drop>(s: &mut [T], i: usize, v: V)
where
    T::Error: Drop,
{
    if let (Some(place), Ok(v)) = (s.get_mut(i), T::try_from(v)) {
        *place = v;
    }
}

// The first n places, or the whole of a shorter slice.
pub fn first<T>(s: &[T], n: usize) -> &[T] {
    s.get(..n).unwrap_or(s)
}

pub fn first_mut<T>(s: &mut [T], n: usize) -> &mut [T] {
    let end = n.min(s.len());
    &mut s[..end]
}
