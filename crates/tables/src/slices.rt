// Passes over one slice, for slices of any length. What does not fit is not written: each contract
// says by `placed` that nothing changes then.
ghost use Rattle.std.specs.Prelude.{◌≡◌, ◌+◌, ◌++◌, min, leb, length, get_or, set, take, drop};
ghost use Rattle.std.specs.Float.{nan};
ghost use Rattle.lists.specs.Parts.{part_of};
ghost use Rattle.lists.specs.Placed.{placed};

// The element at i, and a NaN past the end: a read that asks nothing.
#[tactic(auto, using(crate::proofs::slices::Laws::nan_is))]
pub fn at(s: &[f64], i: usize) -> f64
    ensures { result ≡ get_or s.now i nan }
{
    s.get(i).copied().unwrap_or(f64::NAN)
}

// A store at i, and none past the end. Not by `get_mut`, which hands out a borrow: what is written behind it
// would have to be followed back to the slice.
pub fn put<T: Copy>(s: &mut [T], i: usize, x: T)
    ensures { s.new ≡ set s.old i x }
{
    if i < s.len() {
        s[i] = x;
    }
}

// Whether n elements from `from` on are within `room`, without a sum that could wrap.
pub fn has_room(room: usize, from: usize, n: usize) -> bool
    ensures { result ≡ leb (from + n) room }
{
    if room < n {
        return false;
    }
    from <= room - n
}

// src into dst, from `from` on. The library's `copy_from_slice` asks for a part of just that length; this
// asks nothing.
pub fn copy_into<T: Copy>(dst: &mut [T], from: usize, src: &[T])
    ensures { dst.new ≡ placed from src.now dst.old }
{
    let n = src.len();
    if has_room(dst.len(), from, n) {
        dst[from..from + n].copy_from_slice(src);
    }
}

// Where a piece of `count` elements that begins at `from` ends among `n`, without a sum that could
// wrap.
pub fn piece_end(n: usize, from: usize, count: usize) -> usize
    ensures { result ≡ min (from + count) n }
{
    n.min(from.saturating_add(count))
}

// The elements from start on, count of them or as many as there are.
pub fn part<T>(xs: &[T], start: usize, count: usize) -> &[T]
    ensures { result.now ≡ part_of start count xs.now }
{
    let n = xs.len();
    let from = start.min(n);
    &xs[from..piece_end(n, from, count)]
}

// The first k elements behind all others, all of them where there are fewer. By three reversals: the
// library's `rotate_left` moves what overlaps by `memmove`, which a program in C that links the archive
// would have to bring beside what it brings now.
pub fn turn_left<T: Copy>(s: &mut [T], k: usize)
    ensures after { s.new ≡ drop k s.old ++ take k s.old }
    ensures len { length s.new ≡ length s.old }
{
    let n = k.min(s.len());
    s[..n].reverse();
    s[n..].reverse();
    s.reverse();
}
