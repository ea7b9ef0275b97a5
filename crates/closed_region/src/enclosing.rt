// Which loop of a face is the outer one, from a table of boxes.
ghost use Rattle.std.specs.Prelude.{◌≡◌, ℕ};
ghost use Rattle.closed_region.specs.Outer.{box_at, slack_of, enclosing_one, outer_of};
ghost use Rattle.closed_region.specs.ByOutermost.{Fits, outermost_of, the_one_against};

use super::box_row::BoxRow;
use super::outer::{
    Outermost, empty_box, encloses_outermost, encloses_within, hull, last_largest, longer_side,
};
use numbers::order::max;

// 10^-9 of the largest side.
fn slack_of<B: BoxRow>(boxes: &[B]) -> f64
    ensures value { result ≡ slack_of (B.boxes_of boxes.now) }
    ensures fit { (i : ℕ) → Fits (box_at (B.boxes_of boxes.now) i) }
{
    let mut largest = 0.0;
    for row in boxes {
        largest = max(largest, longer_side(row.bounds()));
    }
    largest * 1e-9
}

// The outermost ends of the boxes that some box can enclose, and the number of those that none can. One
// pass gives both: with a filter for each the boxes would be asked twice, and it would be no plainer.
fn outermost_of<B: BoxRow>(boxes: &[B], slack: f64) -> Outermost
    ensures { result ≡ outermost_of slack (B.boxes_of boxes.now) }
{
    let mut ends = empty_box();
    let mut unenclosable = 0;
    for row in boxes {
        let b = row.bounds();
        if encloses_within(slack, b, b) {
            ends = hull(ends, b);
        } else {
            unenclosable += 1;
        }
    }
    Outermost { ends, unenclosable }
}

// The one box of which `encloses_outermost` is true, if there is one and no more.
fn the_one_against<B: BoxRow>(boxes: &[B], slack: f64, outermost: Outermost) -> Option<usize>
    ensures { result ≡ the_one_against slack outermost (B.boxes_of boxes.now) }
{
    let mut found = None;
    for (i, row) in boxes.iter().enumerate() {
        if encloses_outermost(slack, outermost, row.bounds()) {
            if found.is_some() {
                return None;
            }
            found = Some(i);
        }
    }
    found
}

// The one box that encloses all others, if there is one and no more. A box alone has no other to
// enclose, so it is not tested: with a NaN among its ends it would fail.
fn enclosing_one<B: BoxRow>(boxes: &[B]) -> Option<usize>
    ensures { result ≡ enclosing_one (slack_of (B.boxes_of boxes.now)) (B.boxes_of boxes.now) }
{
    if boxes.len() == 1 {
        return Some(0);
    }
    let slack = slack_of(boxes);
    the_one_against(boxes, slack, outermost_of(boxes, slack))
}

// The loops' boxes and their areas.
pub fn outer_loop<B: BoxRow>(boxes: &[B], areas: &[f64]) -> usize
    ensures { result ≡ outer_of (B.boxes_of boxes.now) areas.now }
{
    enclosing_one(boxes).unwrap_or(last_largest(areas))
}
