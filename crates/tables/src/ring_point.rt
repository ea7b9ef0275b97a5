// What a ring is made of: its corners, or their u alone. It can be moved along u, and all else that
// it carries stays.
ghost use Rattle.std.specs.Prelude.{◌≡◌, refl, Float};
ghost use Rattle.tables.specs.Moves.{moved_by};
ghost use Rattle.tables.specs.Rows.{held_u};
ghost use Rattle.tables.specs.declared.moves.Move.{Move};

use super::corners::Corner;
use super::moves::{Move, moved};

pub trait RingPoint: Copy {
    ghost u_of: { Self → Float };

    ghost slid: { Move → Self → Self };

    fn u(self) -> f64
        ensures { result ≡ u_of self };

    fn slid(self, m: Move) -> Self
        ensures { result ≡ slid m self };

    ghost u_of_slid: { (m : Move) (x : Self) → u_of (slid m x) ≡ moved_by m (u_of x) };
}

impl RingPoint for f64 {
    ghost u_of = { λ u. u };

    ghost slid = { moved_by };

    ghost u_of_slid = { λ m u. refl };

    fn u(self) -> f64 {
        self
    }

    fn slid(self, m: Move) -> f64 {
        moved(self, m)
    }
}

impl RingPoint for Corner {
    ghost u_of = { λ c. c.u };

    ghost slid = { λ m. held_u (moved_by m) };

    ghost u_of_slid = { λ m c. refl };

    fn u(self) -> f64 {
        self.u
    }

    fn slid(self, m: Move) -> Corner {
        Corner {
            u: moved(self.u, m),
            ..self
        }
    }
}
