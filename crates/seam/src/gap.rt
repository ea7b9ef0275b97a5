// The widest gap between the holes on the strip.
ghost use Rattle.std.specs.Prelude.{◌≡◌, length, take_while};
ghost use Rattle.std.specs.Float.Ieee.{lt};
ghost use Rattle.seam.specs.Gap.{gap_along, sorted};
ghost use Rattle.seam.specs.Gap as Gaps;

use numbers::order::max;
use tables::slices::turn_left;

// What a hole covers, by its u. Not `Interval`, which is where a parameter of a surface lies.
#[derive(Clone, Copy)]
pub struct Span {
    pub low: f64,
    pub high: f64,
}

// How far the holes reach so far, the widest gap before them, and its middle.
#[derive(Clone, Copy)]
pub struct Gap {
    pub reach: f64,
    pub width: f64,
    pub cut: f64,
}

// Past one hole more.
#[tactic(auto, unfolding(crate::specs::Gap::passed))]
fn passed(g: Gap, s: Span) -> Gap
    ensures { result ≡ Gaps.passed g s }
{
    let reach = max(g.reach, s.high);
    let width = s.low - g.reach;
    if width > g.width {
        let cut = (g.reach + s.low) * 0.5;
        return Gap { reach, width, cut };
    }
    Gap { reach, ..g }
}

// Holes in the order in which they begin, on the strip from lo to hi.
pub fn widest_gap(spans: &[Span], lo: f64, hi: f64) -> Gap
    ensures { result ≡ gap_along lo hi spans.now }
{
    let mut g = Gap {
        reach: lo,
        width: 0.0,
        cut: lo,
    };
    for s in spans {
        g = passed(g, *s);
    }
    passed(g, Span { low: hi, high: hi })
}

// Whether the gap has a width and its middle lies inside the strip.
#[tactic(auto, unfolding(crate::specs::Gap::usable))]
pub fn usable(g: Gap, lo: f64, hi: f64) -> bool
    ensures { result ≡ Gaps.usable lo hi g }
{
    if g.width <= 0.0 {
        return false;
    }
    if g.cut <= lo {
        return false;
    }
    !(g.cut >= hi)
}

// How many at the front begin below x.
fn below(spans: &[Span], x: f64) -> usize
    ensures { result ≡ length (take_while (λ s. lt s.low x) spans.now) }
{
    spans.iter().take_while(|s| s.low < x).count()
}

// The holes in the order in which they begin, equals as they stand: from the last to the first, each
// is put before the first behind it that does not begin below it. Not by the library's `sort`, which is
// stable but needs an allocator: by a rule of the project nothing here has a heap.
pub fn sort_spans(spans: &mut [Span])
    ensures { spans.new ≡ sorted spans.old }
{
    for i in (0..spans.len()).rev() {
        let to = i + 1 + below(&spans[i + 1..], spans[i].low);
        turn_left(&mut spans[i..to], 1);
    }
}
