// One value of each loop, as its count or its area: those of the holes, which are all loops but those
// of number a and b. Where they do not all fit, nothing is written.
ghost use Rattle.std.specs.Prelude.{◌≡◌, length};
ghost use Rattle.lists.specs.Placed.{placed};
ghost use Rattle.lists.specs.Places.{places};
ghost use Rattle.holes.specs.Others.{is_ring, others};

use tables::slices::has_room;

pub fn is_ring(i: usize, a: usize, b: usize) -> bool
    ensures { result ≡ is_ring a b i }
{
    i == a || i == b
}

// How many of n loops are holes.
pub fn count_holes(n: usize, a: usize, b: usize) -> usize
    ensures { result ≡ length (others a b (places n)) }
{
    (0..n).filter(|i| !is_ring(*i, a, b)).count()
}

// The values of the holes, as their counts or their areas, into dst from `at` on. The place is counted by
// hand: with `iter_mut` and an adapter the proof cannot close, as nothing is known then of what was
// written.
pub fn pick<T: Copy>(dst: &mut [T], at: usize, src: &[T], a: usize, b: usize)
    ensures { dst.new ≡ placed at (others a b src.now) dst.old }
{
    if !has_room(dst.len(), at, count_holes(src.len(), a, b)) {
        return;
    }
    let mut k = 0;
    for (i, x) in src.iter().enumerate() {
        if !is_ring(i, a, b) {
            dst[at + k] = *x;
            k += 1;
        }
    }
}
