// The check of a face record, and what is read of one.
ghost use Rattle.std.specs.Prelude.{◌≡◌, length};
ghost use Rattle.records.specs.Answers.{number_of, place_in};
ghost use Rattle.records.specs.Face.{counts, head, corners_in};
ghost use Rattle.std.specs.Bool.{then_some};
ghost use Rattle.records.specs.Lent.{filled_if, counts_fit, head_fits, points_fit};
ghost use Rattle.records.specs.Limits.{version1};
ghost use Rattle.records.specs.Refusals.{record_conditions, verdict};
ghost use Rattle.tables.specs.Rows.{rows};
ghost use Rattle.views.specs.Tables.{corners_of, rest_of};
ghost use Rattle.compared.specs.Records.{counted};

use records::limits::version1;
use views::corners::split_corners_mut;

// How many values or bytes there are: `done` is 0 where something lent was too short, else 1.
#[repr(C)]
#[derive(Clone, Copy)]
pub struct Counted {
    pub done: usize,
    pub number: usize,
}

impl From<Option<usize>> for Counted {
    ghost from_gives = { λ count c. c ≡ counted count };

    fn from(count: Option<usize>) -> Counted {
        match count {
            Some(number) => Counted { done: 1, number },
            None => Counted { done: 0, number: 0 },
        }
    }
}

// The number of the refusal, 0 where the check passes.
#[unsafe(no_mangle)]
pub extern "C" fn compared_refusal(face: &[u8]) -> u8
    ensures { result ≡ number_of (verdict (record_conditions version1) face.now) }
{
    match records::check::check(face, version1()) {
        Ok(()) => 0,
        Err(refusal) => refusal.number(),
    }
}

// Its place, 0 where the check passes.
#[unsafe(no_mangle)]
pub extern "C" fn compared_refusal_place(face: &[u8]) -> usize
    ensures { result ≡ place_in (verdict (record_conditions version1) face.now) }
{
    match records::check::check(face, version1()) {
        Ok(()) => 0,
        Err(refusal) => refusal.place(),
    }
}

#[unsafe(no_mangle)]
pub extern "C" fn compared_read_counts(face: &[u8], dst: &mut [usize]) -> Counted
    ensures value { result ≡ counted (then_some (counts_fit face.now (length dst.old)) (length (counts face.now))) }
    ensures dst_after { dst.new ≡ filled_if (counts_fit face.now (length dst.old)) (counts face.now) dst.old }
{
    Counted::from(records::read::read_counts(face, dst))
}

#[unsafe(no_mangle)]
pub extern "C" fn compared_read_head(face: &[u8], dst: &mut [f64]) -> Counted
    ensures value { result ≡ counted (then_some (head_fits face.now (length dst.old)) (length (head face.now))) }
    ensures dst_after { dst.new ≡ filled_if (head_fits face.now (length dst.old)) (head face.now) dst.old }
{
    Counted::from(records::read::read_head(face, dst))
}

#[unsafe(no_mangle)]
#[tactic(auto, using(views::proofs::CornerRows::items_after, views::proofs::CornerRows::rest_after))]
pub extern "C" fn compared_read_corners(face: &[u8], t: &mut [f64]) -> Counted
    ensures value { result ≡ counted (then_some (points_fit face.now (length (rows (corners_of t.old)))) (length (corners_in face.now))) }
    ensures t_after { rows (corners_of t.new) ≡ filled_if (points_fit face.now (length (rows (corners_of t.old)))) (corners_in face.now) (rows (corners_of t.old)) }
    ensures behind { rest_of t.new ≡ rest_of t.old }
{
    let (corners, _) = split_corners_mut(t);
    Counted::from(records::read::read_corners(face, corners))
}
