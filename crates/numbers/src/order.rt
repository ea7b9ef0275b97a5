// The lesser and the greater of two reals. Not `f64::min` and `f64::max`: of two that are equal, as
// 0.0 and -0.0, those may answer either, and here it is the earlier; where one is a NaN they answer
// the other, and here it is the earlier too.
ghost use Rattle.std.specs.Prelude.{◌≡◌};
ghost use Rattle.numbers.specs.Order.{min_of, max_of};

pub fn min(a: f64, b: f64) -> f64
    ensures { result ≡ min_of a b }
{
    if b < a { b } else { a }
}

pub fn max(a: f64, b: f64) -> f64
    ensures { result ≡ max_of a b }
{
    if a < b { b } else { a }
}
