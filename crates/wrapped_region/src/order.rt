// Which of two rings of a band is the lower one, and whether the band crosses v's seam.
ghost use Rattle.std.specs.Prelude.{◌≡◌, not, if◌then◌else◌};
ghost use Rattle.bands.specs.Band.{first_is_lower};
ghost use Rattle.wrapped_region.specs.Ordered.{crosses};

// Whether a ring goes with the face: u rising, or falling where the face's sense is not the surface's.
pub fn goes_with(sense: bool, falls: bool) -> bool
    ensures { result ≡ (if sense then not falls else falls) }
{
    if sense { !falls } else { falls }
}

// Whether the first of two rings is the lower one. Where v comes round, the one that goes with the
// face is lower if the other does not. The rings' facts are apart, as the definition has them, and not in
// a struct for each.
#[tactic(auto, unfolding(bands::specs::Band::first_is_lower))]
pub fn first_is_lower(period: Option<f64>, with1: bool, with2: bool, mean1: f64, mean2: f64) -> bool
    ensures { result ≡ first_is_lower period with1 with2 mean1 mean2 }
{
    match period {
        None => !(mean2 < mean1),
        Some(_) if mean2 < mean1 => !with2 && with1,
        Some(_) => with1 || !with2,
    }
}

// Whether the band crosses v's seam, where v comes round.
#[tactic(auto, unfolding(crate::specs::Ordered::crosses))]
pub fn crosses(with_lower: bool, with_upper: bool, lower: f64, upper: f64) -> bool
    ensures { result ≡ crosses with_lower with_upper lower upper }
{
    with_lower && !with_upper && upper < lower
}
