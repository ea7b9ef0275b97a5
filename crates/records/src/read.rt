// Reading a face record into lent slices, its corners into a table; each function answers how many values it read. Nothing
// is checked here but that the record is long enough for what its counts say and that the slices have room: where not,
// nothing is written, and there is no number.
ghost use Rattle.std.specs.Prelude.{◌≡◌, ◌+◌, ◌*◌, ◌≤◌, length, get_or};
ghost use Rattle.records.specs.Bytes.{real_at};
ghost use Rattle.tables.specs.Rows.{rows, corner_of};
ghost use Rattle.records.specs.Face.{kind, sense, segments, corners_in, corner_at};
ghost use Rattle.records.specs.Lent.{front, counts_there, CountsRead, HeadRead, CornersRead, CornersRoom};

use super::with_counts::WithCounts;
use super::{HEAD_REALS, HEADER_SIZE, count_at, loops, points, real_at};
use numbers::math::Vec3;
use tables::corners::Corner;

// The byte at i, 0 past the end.
fn byte_at(s: &[u8], i: usize) -> u8
    ensures { result ≡ get_or s.now i 0 }
{
    s.get(i).copied().unwrap_or(0)
}

pub fn kind(face: &[u8]) -> u8
    ensures { result ≡ kind face.now }
{
    byte_at(face, 1)
}

pub fn sense(face: &[u8]) -> u8
    ensures { result ≡ sense face.now }
{
    byte_at(face, 3)
}

pub fn segments(face: &[u8]) -> u8
    ensures { result ≡ segments face.now }
{
    byte_at(face, 4)
}

#[tactic(auto, unfolding(crate::specs::Lent::counts_there))]
fn counts_there(face: &[u8]) -> bool
    ensures { result ≡ counts_there face.now }
{
    if face.len() < HEADER_SIZE {
        return false;
    }
    HEADER_SIZE + 2 * loops(face) <= face.len()
}

// The points of each loop.
pub fn read_counts(face: &[u8], dst: &mut [usize]) -> Option<usize>
    ensures { CountsRead face.now dst.old dst.new result }
{
    if !counts_there(face) {
        return None;
    }
    let l = loops(face);
    if dst.len() < l {
        return None;
    }
    for k in 0..l {
        dst[k] = count_at(face, k);
    }
    Some(l)
}

// The 13 reals before the points.
pub fn read_head(face: &[u8], dst: &mut [f64]) -> Option<usize>
    ensures { HeadRead face.now dst.old dst.new result }
{
    if !counts_there(face) {
        return None;
    }
    let at = HEADER_SIZE + 2 * loops(face);
    if face.len() < at + 8 * HEAD_REALS {
        return None;
    }
    if dst.len() < HEAD_REALS {
        return None;
    }
    for i in 0..HEAD_REALS {
        dst[i] = real_at(face, at + 8 * i);
    }
    Some(HEAD_REALS)
}

// The corner whose parameters stand at p and whose position stands at q.
#[tactic(auto, using(crate::proofs::Columns::corner_read))]
fn corner_in(face: &[u8], p: usize, q: usize) -> Corner
    requires { (p + 16 ≤ length face.now) × (q + 24 ≤ length face.now) }
    ensures { corner_of result ≡ corner_at face.now p q }
{
    Corner {
        u: real_at(face, p),
        v: real_at(face, p + 8),
        at: Vec3 {
            x: real_at(face, q),
            y: real_at(face, q + 8),
            z: real_at(face, q + 16),
        },
    }
}

// The corners, where there is room for them.
fn fill_corners(face: &[u8], n: usize, t: &mut [Corner])
    requires { CornersRoom face.now n t.old }
    ensures { rows t.new ≡ front (corners_in face.now) (rows t.old) }
{
    let uv = HEADER_SIZE + 2 * loops(face) + 8 * HEAD_REALS;
    let xyz = uv + 16 * n;
    for i in 0..n {
        t[i] = corner_in(face, uv + 16 * i, xyz + 24 * i);
    }
}

// The corners of all loops in file order, a row each.
#[tactic(auto, using(tables::proofs::Steps::row_steps))]
pub fn read_corners(face: &[u8], t: &mut [Corner]) -> Option<usize>
    ensures { CornersRead face.now t.old t.new result }
{
    if !counts_there(face) {
        return None;
    }
    let n = points(WithCounts { bytes: face });
    if face.len() < HEADER_SIZE + 2 * loops(face) + 8 * (HEAD_REALS + 5 * n) {
        return None;
    }
    if t.len() < n {
        return None;
    }
    fill_corners(face, n, t);
    Some(n)
}
