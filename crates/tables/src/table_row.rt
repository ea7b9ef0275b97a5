// What a row of a table is read as. A table is made of corners, or of reals, five to a row, as another
// language has it; what only reads a table reads its rows by this.
ghost use Rattle.std.specs.Prelude.{◌≡◌, refl, List, map};
ghost use Rattle.numbers.specs.declared.math.Vec3.{Vec3};
ghost use Rattle.tables.specs.Corners.{Corner as CornerOf, Corners};
ghost use Rattle.tables.specs.Rows.{rows, corner_of, five_reals};

use super::corners::Corner;
use numbers::math::Vec3;

pub trait TableRow: Copy {
    ghost row_of: { Self → CornerOf Vec3 };

    // The rows of a whole table.
    ghost rows_of: { List Self → Corners Vec3 };

    fn corner(self) -> Corner
        ensures { corner_of result ≡ row_of self };

    ghost rows_are: { (t : List Self) → rows_of t ≡ map row_of t };
}

impl TableRow for Corner {
    ghost row_of = { corner_of };

    ghost rows_of = { rows };

    ghost rows_are = { λ t. unfold rows in refl };

    fn corner(self) -> Corner {
        self
    }
}

impl TableRow for [f64; 5] {
    ghost row_of = { five_reals };

    ghost rows_of = { map five_reals };

    ghost rows_are = { λ t. refl };

    fn corner(self) -> Corner {
        let [u, v, x, y, z] = self;
        Corner {
            u,
            v,
            at: Vec3 { x, y, z },
        }
    }
}
