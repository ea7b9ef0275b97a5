// Closes one face: reads its record from standard input, and writes its result record or six bytes
// to standard output.
#![tactic(auto)]

ghost use Rattle.std.specs.Prelude.{◌≡◌, List, ℕ, ◌≤◌, length, take, IfOk};
ghost use Rattle.records.specs.Call.{output};
ghost use Rattle.records.specs.Limits.{version1};
ghost use Rattle.call.specs.Judge.{judge};
ghost use Rattle.answers.specs.Written.{FoundIn};

use answers::write_answer;
use std::io;
use std::io::{ErrorKind, Print, Read, Stdin};

// The longest record that is accepted has 20,621 bytes. Of an input one byte more is read, and the
// answer to those is the answer to all of it.
const READ: usize = 20622;

// The bytes that a call asks to be lent for a result.
const LENT: usize = 61614;

// A read is tried so many times where each try is interrupted. Every loop has to end, and nothing
// says that signals do.
const TRIES: u32 = 1000;

// Reads once, to the bytes from `done` on, and says how many are there then. Those before stay.
fn read_once(input: &mut Stdin, bytes: &mut [u8], done: usize) -> io::Result<usize>
    requires { done ≤ length bytes.old }
    ensures within { IfOk result (λ there. (done ≤ there) × (there ≤ length bytes.new)) }
    ensures bytes_unchanged { take done bytes.new ≡ take done bytes.old }
{
    let more = input.read(&mut bytes[done..])?;
    Ok(done + more)
}

// Reads once, and again where a signal interrupted the read before it moved a byte.
fn read_more(input: &mut Stdin, bytes: &mut [u8], done: usize) -> io::Result<usize>
    requires { done ≤ length bytes.old }
    ensures within { IfOk result (λ there. (done ≤ there) × (there ≤ length bytes.new)) }
    ensures bytes_unchanged { take done bytes.new ≡ take done bytes.old }
{
    for _ in 1..TRIES {
        match read_once(input, bytes, done) {
            Ok(there) => return Ok(there),
            Err(error) => {
                if error.kind() != ErrorKind::Interrupted {
                    return Err(error);
                }
            }
        }
    }
    read_once(input, bytes, done)
}

// Reads until the input ends or the bytes are full, and says how many are there. Where a read fails,
// the input may not have been at its end.
fn read_input(input: &mut Stdin, bytes: &mut [u8]) -> io::Result<usize>
    ensures { IfOk result (λ there. there ≤ length bytes.new) }
{
    let mut done = 0;
    // A `for` would be no plainer: it would count turns that nothing needs, and still ask whether the
    // bytes are full.
    while done < bytes.len() {
        let there = read_more(input, bytes, done)?;
        if there == done {
            break;
        }
        done = there;
    }
    Ok(done)
}

// What is to be written of the `n` bytes that were read, at the front of `out`; of a refusal the place
// is there whole. It is the answer to every input of which these are as many first bytes as `face` has
// room for, or all where there are fewer. Those are what `read_input` leaves where a read moves the
// input's bytes in their order and answers 0 only at its end, as POSIX says and no contract can.
fn answer_input(face: &[u8; READ], n: usize, out: &mut [u8; LENT]) -> usize
    requires { n ≤ length face.now }
    ensures upper_bound { result ≤ length out.new }
    ensures for_every_input { (input : List ℕ) → take n face.now ≡ take (length face.now) input
        → (take result out.new ≡ output (judge version1.result input)) × FoundIn (judge version1.result input) out.old out.new }
{
    let bytes: &[u8] = face;
    write_answer(&bytes[..n], out)
}

// Where a read fails nothing is written, and a write that fails is not told: the status is 0.
fn main(rt: HostRuntime) {
    let mut face = [0u8; READ];
    let Ok(n) = read_input(&mut rt.stdin(), &mut face) else {
        return;
    };
    let mut out = [0u8; LENT];
    let length = answer_input(&face, n, &mut out);
    let _ = rt.write_all(&out[..length]);
}
