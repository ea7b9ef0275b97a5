// Which corners are repeats: 01, "Where port and Rust part", item 5.
ghost use Rattle.std.specs.Prelude.{◌≡◌, length};
ghost use Rattle.loops.specs.Repeats.{drop_trailing, keep};
ghost use Rattle.tables.specs.Rows.{rows, corner_of};
ghost use Rattle.strip.specs.Corners.{same_at};

use tables::corners::Corner;

// How few rows stay, where the others repeat the first.
const LEAST: usize = 3;

// Whether two corners stand at one position.
#[tactic(auto, unfolding(numbers::specs::Position::same))]
pub fn repeated_by(kept: Corner, next: Corner) -> bool
    ensures { result ≡ same_at (corner_of kept) (corner_of next) }
{
    kept.at == next.at
}

// How many rows stay when those at the end go that repeat the first, while more than three remain.
pub fn trim(t: &[Corner]) -> usize
    ensures { result ≡ length (drop_trailing same_at keep (rows t.now)) }
{
    for end in (LEAST..t.len()).rev() {
        if !repeated_by(t[0], t[end]) {
            return end + 1;
        }
    }
    t.len().min(LEAST)
}
