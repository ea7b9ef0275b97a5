// The face record as bytes: its limits, its check, and reading it.
#![tactic(auto)]

ghost use Rattle.std.specs.Prelude.{◌≡◌, ◌+◌, ◌*◌, ◌≤◌, ◌<◌, length, take, drop};
ghost use Rattle.records.specs.Bytes.{real_at};
ghost use Rattle.records.specs.Face.{header_size, loops, count, points};

use numbers::bits;
use with_counts::WithCounts;

pub mod check;
pub mod limits;
pub mod read;
mod real_ranges;
pub mod refusal;
mod with_counts;

// The sizes of a face record's parts, and how few points a loop may have.
const HEADER_SIZE: usize = 5;

const HEAD_REALS: usize = 13;

const MIN_POINTS: usize = 3;

// The W bytes from `at` on.
fn bytes_at<const W: usize>(s: &[u8], at: usize) -> [u8; W]
    requires { at + W ≤ length s.now }
    ensures { result ≡ take W (drop at s.now) }
{
    let mut bytes = [0; W];
    bytes.copy_from_slice(&s[at..at + W]);
    bytes
}

// The real in the 8 bytes from `at` on; whatever NaN stands there, it is a NaN.
fn real_at(s: &[u8], at: usize) -> f64
    requires { at + 8 ≤ length s.now }
    ensures { result ≡ real_at s.now at }
{
    bits::from_bits(u64::from_le_bytes(bytes_at(s, at))).unwrap_or(f64::NAN)
}

fn loops(face: &[u8]) -> usize
    requires { header_size ≤ length face.now }
    ensures { (result ≡ loops face.now) × (result < 256) }
{
    usize::from(face[2])
}

// How many points loop k has.
#[tactic(auto, using(crate::proofs::Numbers::two_at))]
fn count_at(face: &[u8], k: usize) -> usize
    requires { header_size + 2 * k + 2 ≤ length face.now }
    ensures { (result ≡ count face.now k) × (result < 65536) }
{
    usize::from(u16::from_le_bytes(bytes_at(face, HEADER_SIZE + 2 * k)))
}

// How many points all loops have.
fn points(face: WithCounts) -> usize
    ensures { (result ≡ points face.entry.bytes.now) × (result < 16777216) }
{
    let mut total = 0;
    for k in 0..loops(face.bytes) {
        total += count_at(face.bytes, k);
    }
    total
}
