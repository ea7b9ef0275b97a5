// Writing a result record into lent bytes: sizes (path, corner counts), areas, and the corners in a
// table, all of any length. The record's length is known from its sizes before the first byte is
// written; where something lent is too short nothing is written.
#![tactic(auto)]

ghost use Rattle.std.specs.Prelude.{◌≡◌, ◌∷◌, [], ◌+◌, ◌*◌, ◌≤◌, map, length};
ghost use Rattle.std.proofs.lemmas.List.Edits.{sets};
ghost use Rattle.records.specs.Bytes.{u16, real, uv, xyz, row};
ghost use Rattle.records.specs.Result.{encode};
ghost use Rattle.records.specs.Lent.{front};
ghost use Rattle.tables.specs.Corners.{uv_of, positions};
ghost use Rattle.results.specs.Written.{path_of, table_result, size_of, Fitting, RowsWrittenTo};

use numbers::bits;
use tables::loops::Loops;
use tables::table_row::TableRow;

#[derive(Clone, Copy)]
pub enum Path {
    Closed,
    Wrapped,
    Whole,
}

impl From<Path> for u8 {
    ghost from_gives = { λ path byte. byte ≡ path_of path };

    fn from(path: Path) -> u8 {
        match path {
            Path::Closed => 0,
            Path::Wrapped => 1,
            Path::Whole => 2,
        }
    }
}

// What a record takes.
#[derive(Clone, Copy)]
pub struct RecordSize {
    pub corners: usize,
    pub length: usize,
}

// What a record with some corner counts takes, if a record can hold them.
pub fn result_size(counts: &[usize]) -> Option<RecordSize>
    ensures { result ≡ size_of counts.now }
{
    let n = counts.len();
    if n < 1 {
        return None;
    }
    if n > 256 {
        return None;
    }
    let holes = n - 1;
    let mut corners = 0;
    for count in counts {
        if *count > 65535 {
            return None;
        }
        corners += count;
    }
    Some(RecordSize {
        corners,
        length: 4 + 10 * (holes + 1) + 40 * corners,
    })
}

#[tactic(auto, using(crate::proofs::Stores::put_part))]
fn put(out: &mut [u8], at: usize, bytes: &[u8])
    requires { at + length bytes.now ≤ length out.old }
    ensures { out.new ≡ sets out.old at bytes.now }
{
    out[at..at + bytes.len()].copy_from_slice(bytes);
}

// Version, path, holes, zero.
fn put_head(out: &mut [u8], path: Path, holes: u8)
    requires { 4 ≤ length out.old }
    ensures { out.new ≡ sets out.old 0 (1 ∷ path_of path ∷ holes ∷ 0 ∷ []) }
{
    put(out, 0, &[1, u8::from(path), holes, 0]);
}

// This and the three after it are four loops of one shape. They share `put` and the law `Storing` of
// proofs/Stores: one function with a closure for what is stored of each would be no plainer, as the
// closures would give arrays of different lengths.
fn put_counts(out: &mut [u8], at: usize, counts: &[usize])
    requires { at + 2 * length counts.now ≤ length out.old }
    ensures { out.new ≡ sets out.old at (row u16 counts.now) }
{
    for (i, count) in counts.iter().enumerate() {
        let [low, high, ..] = count.to_le_bytes();
        put(out, at + 2 * i, &[low, high]);
    }
}

fn put_reals(out: &mut [u8], at: usize, xs: &[f64])
    requires { at + 8 * length xs.now ≤ length out.old }
    ensures { out.new ≡ sets out.old at (row real xs.now) }
{
    for (i, x) in xs.iter().enumerate() {
        put(out, at + 8 * i, &bits::to_bits(*x).to_le_bytes());
    }
}

fn put_parameters<R: TableRow>(out: &mut [u8], at: usize, t: &[R])
    requires { at + 16 * length t.now ≤ length out.old }
    ensures { out.new ≡ sets out.old at (row uv (map uv_of (R.rows_of t.now))) }
{
    for (i, row) in t.iter().enumerate() {
        let c = row.corner();
        put_reals(out, at + 16 * i, &[c.u, c.v]);
    }
}

fn put_positions<R: TableRow>(out: &mut [u8], at: usize, t: &[R])
    requires { at + 24 * length t.now ≤ length out.old }
    ensures { out.new ≡ sets out.old at (row xyz (positions (R.rows_of t.now))) }
{
    for (i, row) in t.iter().enumerate() {
        let c = row.corner();
        put_reals(out, at + 24 * i, &[c.at.x, c.at.y, c.at.z]);
    }
}

// The whole record, where all fits: m is the number of corners.
fn put_result<R: TableRow>(out: &mut [u8], path: Path, loops: Loops<R>, areas: &[f64], m: usize)
    requires { Fitting out.old loops.counts.now areas.now m (R.rows_of loops.corners.now) }
    ensures { out.new ≡ front (encode (table_result (path_of path) loops.entry.counts.now areas.now (R.rows_of loops.entry.corners.now))) out.old }
{
    let n = loops.counts.len();
    let t = &loops.corners[..m];
    put_head(out, path, (n - 1) as u8);
    put_counts(out, 4, loops.counts);
    put_reals(out, 4 + 2 * n, &areas[..n]);
    put_parameters(out, 4 + 10 * n, t);
    put_positions(out, 4 + 10 * n + 16 * m, t);
}

// The loops, the outer one first, and an area for each. Areas and table may be longer than what is
// taken from them. Answers the record's length, where all fits.
pub fn write_result<R: TableRow>(
    path: Path,
    loops: Loops<R>,
    areas: &[f64],
    out: &mut [u8],
) -> Option<usize>
    ensures { RowsWrittenTo path loops.entry.counts.now areas.now (R.rows_of loops.entry.corners.now) out.old out.new result }
{
    let size = result_size(loops.counts)?;
    if out.len() < size.length {
        return None;
    }
    if areas.len() < loops.counts.len() {
        return None;
    }
    if loops.corners.len() < size.corners {
        return None;
    }
    put_result(out, path, loops, areas, size.corners);
    Some(size.length)
}
