// Closes the stored faces that stand on standard input, and writes the answers to standard output.
// README.md says what both hold.
#![tactic(auto)]

mod painted;

ghost use Rattle.std.specs.Prelude.{◌≡◌, ◌∷◌, []};
ghost use Rattle.records.specs.Bytes.{number};

use answers::{four_bytes, write_refusal};
use closer::close_face;
use painted::{is_painted, paint};
use std::io;
use std::io::{ErrorKind, Print, Read};

// No face is longer, and no more is lent.
const MOST: usize = 65536;

#[tactic(auto, unfolding(records::specs::Bytes::number))]
fn number(a: u8, b: u8, c: u8, d: u8) -> usize
    ensures { result ≡ number (a ∷ b ∷ c ∷ d ∷ []) }
{
    u32::from_le_bytes([a, b, c, d]) as usize
}

// What is stored of an answer: the length of its bytes, those bytes, and whether all others stayed.
fn write_stored(rt: &HostRuntime, answer: &[u8], stayed: bool) -> io::Result<()> {
    rt.write_all(&four_bytes(answer.len()))?;
    rt.write_all(answer)?;
    rt.write_all(&[u8::from(!stayed)])
}

// Closes a face with these bytes lent, whatever they hold.
fn answer_face(rt: &HostRuntime, face: &[u8], lent: &mut [u8]) -> io::Result<()> {
    paint(lent);
    match close_face(face, lent) {
        Ok(length) => {
            let stayed = is_painted(lent, length);
            write_stored(rt, &lent[..length], stayed)
        }
        Err(refusal) => {
            let mut six = [0u8; 6];
            let length = write_refusal(refusal.number(), refusal.place(), &mut six);
            let stayed = is_painted(lent, 0);
            write_stored(rt, &six[..length], stayed)
        }
    }
}

// Reads a record of so many bytes and answers it. It fails where the input ends too early, or a face
// asks for more than there is.
fn replay_face(
    rt: &HostRuntime,
    lent: usize,
    length: usize,
    face: &mut [u8],
    res: &mut [u8],
) -> io::Result<()> {
    if res.len() < lent || face.len() < length {
        return Err(ErrorKind::InvalidInput.into());
    }
    rt.stdin().read_exact(&mut face[..length])?;
    answer_face(rt, &face[..length], &mut res[..lent])
}

// The next face, if there is one.
fn next_face(rt: &HostRuntime, face: &mut [u8], res: &mut [u8]) -> io::Result<()> {
    let mut head = [0u8; 8];
    rt.stdin().read_exact(&mut head)?;
    let [a, b, c, d, e, f, g, h] = head;
    let lent = number(a, b, c, d);
    let length = number(e, f, g, h);
    replay_face(rt, lent, length, face, res)
}

// Tried: a `loop`, which needs a measure that falls, and a `for` over `iter::repeat`, which owes that it ends:
// that is false, and neither proof closes. So the turns are counted: a loop has to end, and nothing says
// that the input does.
fn replay_all(rt: &HostRuntime, face: &mut [u8], res: &mut [u8]) -> io::Result<()> {
    for _ in 0..u64::MAX {
        next_face(rt, face, res)?;
    }
    Ok(())
}

// Whatever stops it, the end of the input too, the status is 0.
fn main(rt: HostRuntime) {
    let mut face = [0u8; MOST];
    let mut result = [0u8; MOST];
    let _ = replay_all(&rt, &mut face, &mut result);
}
