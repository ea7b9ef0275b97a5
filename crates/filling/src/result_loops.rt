// What a face is closed into.
ghost use Rattle.std.specs.Prelude.{◌≡◌};
ghost use Rattle.filling.specs.ResultLoops.{nothing_held};

use tables::corners::{Corner, ORIGIN};

// The corners of a result in the front of a table, outer loop first, and a count and an area of each
// loop in the front of the others. What stands behind the result is free. The arrays are those of
// version 1: a strip of 1,024 corners and 512 points of holes, and 16 loops. It is made once and lent,
// as a copy would take the stack of a whole table.
#[derive(Drop)]
pub struct ResultLoops {
    pub corners: [Corner; 1536],
    pub counts: [usize; 16],
    pub areas: [f64; 16],
}

impl ResultLoops {
    pub fn empty() -> ResultLoops
        ensures { result ≡ nothing_held }
    {
        ResultLoops {
            corners: [ORIGIN; 1536],
            counts: [0; 16],
            areas: [0.0; 16],
        }
    }
}
