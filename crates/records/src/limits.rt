// How large a face may be in a version, and how many bytes are to be lent for its result.
ghost use Rattle.std.specs.Prelude.{◌≡◌};
ghost use Rattle.records.specs.Limits.{version1};

#[derive(Clone, Copy)]
pub struct Limits {
    pub loops: usize,
    // Of all loops.
    pub points: usize,
    // Of a strip, before repeats are dropped.
    pub strip: usize,
    // The result bytes that are to be lent.
    pub result: usize,
}

pub fn version1() -> Limits
    ensures { result ≡ version1 }
{
    Limits {
        loops: 16,
        points: 512,
        strip: 1024,
        result: 61614,
    }
}
