// Reals: every operation that the closer does on an `f64` beyond the machine's own sums, products
// and comparisons and the library's `abs`, `round`, `floor` and `ceil`, and the vectors and frames
// made of them. Total on every `f64`.
#![tactic(auto)]

pub mod bits;
pub mod math;
pub mod order;
pub mod root;
pub mod rounding;
pub mod trig;
