// How many corners a strip has.
ghost use Rattle.std.specs.Prelude.{◌≡◌};
ghost use Rattle.strip.specs.Count.{count_of, capped};

// How many corners the strip has before its repeats are dropped; usize::MAX where there are more.
pub fn strip_count(lower: usize, upper: usize, inner: usize) -> usize
    ensures { result ≡ capped (count_of lower upper inner) }
{
    let rings = lower.saturating_add(upper);
    let walls = inner.saturating_add(inner);
    rings.saturating_add(2).saturating_add(walls)
}
