// The rungs of `merge_even` of `knots.rs`, for surfaces that have no breaks. There is no list of
// them: they are counted as they come, and those asked for are written to a lent slice. The bounds and the
// number of divisions are three parameters, as the definitions take them.
ghost use Rattle.std.specs.Prelude.{◌≡◌, ◌+◌, ◌-◌, length, drop};
ghost use Rattle.std.specs.Iterator.{YieldsFirst, item_count};
ghost use Rattle.std.proofs.lemmas.List.Edits.{sets};
ghost use Rattle.surfaces.specs.Rungs.{division, slack_of, near, kept_divisions, kept_left, rungs, EndsOn, EndWritten, inner, placed};

// The division i of n even ones from lo to hi.
#[tactic(auto, unfolding(crate::specs::Rungs::division))]
pub fn division(lo: f64, hi: f64, n: usize, i: usize) -> f64
    ensures { result ≡ division lo hi n i }
{
    let all = n.max(1) as u64;
    lo + (hi - lo) * std::num::nearest_u64_to_f64(i as u64) / std::num::nearest_u64_to_f64(all)
}

#[tactic(auto, using(numbers::proofs::order::Laws::size_is), unfolding(crate::specs::Rungs::slack_of))]
fn slack(lo: f64, hi: f64) -> f64
    ensures { result ≡ slack_of lo hi }
{
    (hi - lo).abs() * 1e-9
}

// Whether x is too near the rung kept before it.
#[tactic(auto, using(numbers::proofs::order::Laws::size_is), unfolding(crate::specs::Rungs::near))]
fn near(slack: f64, x: f64, last: f64) -> bool
    ensures { result ≡ near slack x last }
{
    (x - last).abs() <= slack
}

// The divisions that are kept behind the first, one after the other: each that is not too near the
// one kept before it. `last` is that one, and `passed` the number of the division that was come to.
#[derive(Clone, Copy)]
pub struct KeptDivisions {
    lo: f64,
    hi: f64,
    n: usize,
    slack: f64,
    last: f64,
    passed: usize,
}

impl KeptDivisions {
    // Of the n even divisions from lo to hi.
    pub fn new(lo: f64, hi: f64, n: usize) -> KeptDivisions
        ensures { kept_left result ≡ drop 1 (kept_divisions lo hi n) }
    {
        KeptDivisions {
            lo,
            hi,
            n,
            slack: slack(lo, hi),
            last: division(lo, hi, n, 0),
            passed: 0,
        }
    }
}

impl Iterator for KeptDivisions {
    type Item = f64;

    ghost next_gives = { YieldsFirst kept_left };

    ghost remaining = { item_count kept_left };

    fn next(&mut self) -> Option<f64> {
        let s = *self;
        for i in s.passed..s.n {
            let x = division(s.lo, s.hi, s.n, i + 1);
            if !near(s.slack, x, s.last) {
                *self = KeptDivisions {
                    last: x,
                    passed: i + 1,
                    ..s
                };
                return Some(x);
            }
        }
        *self = KeptDivisions { passed: s.n, ..s };
        None
    }
}

// How many rungs there are beside the first: at least one where the bounds differ.
pub fn merge_even_steps(lo: f64, hi: f64, n: usize) -> usize
    ensures value { result ≡ length (rungs lo hi n) - 1 }
    ensures ends_on { EndsOn lo hi result (rungs lo hi n) }
{
    let k = KeptDivisions::new(lo, hi, n).count();
    if lo != hi { k.max(1) } else { k }
}

// A store at k - from, where there is such a place.
#[tactic(auto, unfolding(crate::specs::Rungs::placed))]
fn put(s: &mut [f64], from: usize, k: usize, x: f64)
    ensures { s.new ≡ placed from k x s.old }
{
    if from <= k {
        let i = k - from;
        if i < s.len() {
            s[i] = x;
        }
    }
}

// Writes the rungs from that of number `from` on, as many as there is room for. Where the bounds
// differ they end on the upper one itself. How many came is asked for behind the walk, so k is counted
// by hand.
pub fn merge_even(lo: f64, hi: f64, n: usize, from: usize, out: &mut [f64])
    ensures out_after { out.new ≡ sets out.old 0 (drop from (rungs lo hi n)) }
    ensures end_written { EndWritten lo hi n from out.new }
{
    put(out, from, 0, division(lo, hi, n, 0));
    let mut k: usize = 0;
    for x in KeptDivisions::new(lo, hi, n) {
        k += 1;
        put(out, from, k, x);
    }
    if lo != hi {
        put(out, from, k.max(1), hi);
    }
}

// How many rungs there are beside the first and the last: as many as of the divisions kept.
pub fn inner_count(lo: f64, hi: f64, n: usize) -> usize
    ensures value { result ≡ length (inner (rungs lo hi n)) }
    ensures ends_on { EndsOn lo hi (result + 1) (rungs lo hi n) }
    ensures as_kept { result ≡ length (inner (kept_divisions lo hi n)) }
{
    merge_even_steps(lo, hi, n).saturating_sub(1)
}

// Writes the rungs between the first and the last, as many as there is room for, and answers how
// many there are. They are those of the divisions kept: the end that is set is not among them.
pub fn inner_into(lo: f64, hi: f64, n: usize, out: &mut [f64]) -> usize
    ensures value { result ≡ length (inner (rungs lo hi n)) }
    ensures out_after { out.new ≡ sets out.old 0 (inner (rungs lo hi n)) }
    ensures ends_on { EndsOn lo hi (result + 1) (rungs lo hi n) }
    ensures out_as_kept { out.new ≡ sets out.old 0 (inner (kept_divisions lo hi n)) }
{
    let m = inner_count(lo, hi, n);
    if m < out.len() {
        merge_even(lo, hi, n, 1, &mut out[..m]);
    } else {
        merge_even(lo, hi, n, 1, out);
    }
    m
}
