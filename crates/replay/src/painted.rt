// A pattern in lent bytes, by which it is seen whether they stay.
ghost use Rattle.std.specs.Prelude.{◌≡◌, true, ◌%◌};
ghost use Rattle.replay.specs.Painted.{Painted};

fn shade(i: usize) -> u8
    ensures { result ≡ i % 251 }
{
    (i % 251) as u8
}

pub fn paint(bytes: &mut [u8])
    ensures { Painted 0 bytes.new }
{
    for (i, byte) in bytes.iter_mut().enumerate() {
        *byte = shade(i);
    }
}

// Whether the bytes from `from` on are as they were painted.
pub fn is_painted(bytes: &[u8], from: usize) -> bool
    ensures painted { result ≡ true → Painted from bytes.now }
    ensures value { Painted from bytes.now → result ≡ true }
{
    for i in from..bytes.len() {
        if bytes[i] != shade(i) {
            return false;
        }
    }
    true
}
