// Where the holes of an outer loop go, and whether one stays where it is.
ghost use Rattle.std.specs.Prelude.{◌≡◌, ◌&&◌};
ghost use Rattle.std.specs.Float.Ieee.{eq};
ghost use Rattle.numbers.specs.Constants.{plus_zero};

// Where the holes go: the middle of the outer loop, and the periods. The period of an open direction
// is 0.0 and not `None`: `hole_shift` asks whether a period is above 0.0, as the Rust does, and an `Option`
// would be no plainer, as it would be taken apart to that real.
#[derive(Clone, Copy)]
pub struct Branch {
    pub umid: f64,
    pub vmid: f64,
    pub uperiod: f64,
    pub vperiod: f64,
}

pub fn stays(su: f64, sv: f64) -> bool
    ensures { result ≡ eq su plus_zero && eq sv plus_zero }
{
    su == 0.0 && sv == 0.0
}
