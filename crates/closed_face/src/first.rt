// The outer loop first: a part of a slice moved to the front, by copy.
ghost use Rattle.std.specs.Prelude.{◌≡◌};
ghost use Rattle.lists.specs.Placed.{placed};
ghost use Rattle.closed_face.specs.First.{part_first};

use tables::slices::{copy_into, part};

// What one loop has before what all others have, in their order.
pub fn part_first<T: Copy>(src: &[T], start: usize, count: usize, dst: &mut [T])
    ensures { dst.new ≡ placed 0 (part_first start count src.now) dst.old }
{
    let n = src.len();
    if dst.len() < n {
        return;
    }
    let first = part(src, start, count);
    copy_into(dst, 0, first);
    let m = first.len();
    let before = part(src, 0, start);
    copy_into(dst, m, before);
    let end = m + before.len();
    copy_into(dst, end, part(src, end, n));
}
