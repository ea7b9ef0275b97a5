// What a row of a table of boxes is read as. A table is made of boxes, or of reals, four to a row, as
// another language has it; what only reads a table reads its rows by this.
ghost use Rattle.std.specs.Prelude.{◌≡◌, refl, List, map};
ghost use Rattle.std.proofs.Common.{sym};
ghost use Rattle.std.proofs.lemmas.List.{map-id};
ghost use Rattle.closed_region.specs.declared.boxes.Bounds.{Bounds as BoundsOf};
ghost use Rattle.closed_region.specs.BoxRows.{four_reals};

use super::boxes::Bounds;

pub trait BoxRow: Copy {
    ghost box_of: { Self → BoundsOf };

    // The boxes of a whole table.
    ghost boxes_of: { List Self → List BoundsOf };

    fn bounds(self) -> Bounds
        ensures { result ≡ box_of self };

    ghost boxes_are: { (t : List Self) → boxes_of t ≡ map box_of t };
}

impl BoxRow for Bounds {
    ghost box_of = { λ b. b };

    ghost boxes_of = { λ t. t };

    ghost boxes_are = { λ t. sym (map-id t) };

    fn bounds(self) -> Bounds {
        self
    }
}

impl BoxRow for [f64; 4] {
    ghost box_of = { four_reals };

    ghost boxes_of = { map four_reals };

    ghost boxes_are = { λ t. refl };

    fn bounds(self) -> Bounds {
        let [ulo, uhi, vlo, vhi] = self;
        Bounds { ulo, uhi, vlo, vhi }
    }
}
