// What the program `close` writes of a face: its result record, or six bytes.
#![tactic(auto)]

ghost use Rattle.std.specs.Prelude.{◌≡◌, ◌∷◌, ◌≤◌, length};
ghost use Rattle.std.proofs.lemmas.List.Edits.{sets};
ghost use Rattle.records.specs.Bytes.{bytes};
ghost use Rattle.records.specs.Call.{refused};
ghost use Rattle.call.specs.Judge.{judge};
ghost use Rattle.answers.specs.Written.{written, written_length, FoundIn};

use closer::close_face;

// The four lowest bytes of a number, the lowest first.
#[tactic(auto, unfolding(records::specs::Bytes::bytes))]
pub fn four_bytes(n: usize) -> [u8; 4]
    ensures { result ≡ bytes 4 n }
{
    let [first, second, third, fourth, ..] = n.to_le_bytes();
    [first, second, third, fourth]
}

// 0, the refusal, its place in four bytes.
fn put_refusal(out: &mut [u8], number: u8, place: usize)
    requires { 6 ≤ length out.old }
    ensures { out.new ≡ sets out.old 0 (0 ∷ number ∷ bytes 4 place) }
{
    let [a, b, c, d] = four_bytes(place);
    out[..6].copy_from_slice(&[0, number, a, b, c, d]);
}

// A refusal as the program `close` writes it, at the front of `out`. Answers how many bytes it takes;
// fewer than six do not hold it, and stay. Four bytes hold a place below 2^32, as those of every
// refused call are. It takes the two numbers, and so what is no `Refusal` too.
pub fn write_refusal(number: u8, place: usize, out: &mut [u8]) -> usize
    ensures value { result ≡ written_length (refused number place) out.old }
    ensures out_after { out.new ≡ written (refused number place) out.old }
{
    if out.len() < 6 {
        return 0;
    }
    put_refusal(out, number, place);
    6
}

// Closes the face of a record, with all of `out` lent for its result. Answers how many bytes at the
// front of `out` are then what the program `close` writes; the bytes past them keep their values.
pub fn write_answer(face: &[u8], out: &mut [u8]) -> usize
    ensures value { result ≡ written_length (judge (length out.old) face.now) out.old }
    ensures out_after { out.new ≡ written (judge (length out.old) face.now) out.old }
    ensures found_in { FoundIn (judge (length out.old) face.now) out.old out.new }
{
    match close_face(face, out) {
        Ok(length) => length,
        Err(refusal) => write_refusal(refusal.number(), refusal.place(), out),
    }
}
