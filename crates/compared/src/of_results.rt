// The size of a result record, and the record written.
ghost use Rattle.std.specs.Prelude.{◌≡◌, length};
ghost use Rattle.records.specs.Lent.{filled_if};
ghost use Rattle.records.specs.Result.{encode};
ghost use Rattle.std.specs.Bool.{then_some};
ghost use Rattle.results.specs.Written.{path_of, table_result, length_of, size_of, result_fits};
ghost use Rattle.tables.specs.Rows.{rows};
ghost use Rattle.views.specs.Tables.{corners_of};
ghost use Rattle.compared.specs.Records.{counted, path_from, room_of};

use super::of_records::Counted;
use results::{Path, RecordSize};
use tables::loops::Loops;

// What a record takes: `holds` is 0 where a record cannot hold the counts, else 1.
#[repr(C)]
#[derive(Clone, Copy)]
pub struct Room {
    pub holds: usize,
    pub corners: usize,
    pub length: usize,
}

fn path_from(number: u32) -> Path
    ensures { result ≡ path_from number }
{
    match number {
        0 => Path::Closed,
        1 => Path::Wrapped,
        _ => Path::Whole,
    }
}

impl From<Option<RecordSize>> for Room {
    ghost from_gives = { λ size room. room ≡ room_of size };

    fn from(size: Option<RecordSize>) -> Room {
        match size {
            Some(RecordSize { corners, length }) => Room {
                holds: 1,
                corners,
                length,
            },
            None => Room {
                holds: 0,
                corners: 0,
                length: 0,
            },
        }
    }
}

#[unsafe(no_mangle)]
pub extern "C" fn compared_result_size(counts: &[usize]) -> Room
    ensures { result ≡ room_of (size_of counts.now) }
{
    Room::from(results::result_size(counts))
}

#[unsafe(no_mangle)]
#[tactic(auto, using(views::proofs::CornerRows::rows_read))]
pub extern "C" fn compared_write_result(
    path: u32,
    counts: &[usize],
    areas: &[f64],
    t: &[f64],
    out: &mut [u8],
) -> Counted
    ensures value { result ≡ counted (then_some (result_fits counts.now (length areas.now) (length (rows (corners_of t.now))) (length out.old)) (length_of counts.now)) }
    ensures out_after { out.new ≡ filled_if (result_fits counts.now (length areas.now) (length (rows (corners_of t.now))) (length out.old)) (encode (table_result (path_of (path_from path)) counts.now areas.now (rows (corners_of t.now)))) out.old }
{
    let (corners, _) = t.as_chunks::<5>();
    let loops = Loops { corners, counts };
    Counted::from(results::write_result(path_from(path), loops, areas, out))
}
