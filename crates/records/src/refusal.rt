// The refusals of a face record, in the order of their numbers, each with its place.
ghost use Rattle.std.specs.Prelude.{◌≡◌};
ghost use Rattle.records.specs.Answers.{refusal_number, refusal_place};

#[derive(Clone, Copy, Debug, PartialEq, Eq)]
pub enum Refusal {
    TooFewLent(usize),
    WrongHeader(usize),
    TooManyLoops(usize),
    TooFewPoints(usize),
    TooManyPoints(usize),
    WrongLength(usize),
    BadReal(usize),
    OpenRing(usize),
    OneRing(usize),
    ManyRings(usize),
    OpenSurface(usize),
    LongStrip(usize),
}

impl Refusal {
    // Its number in the table, from 1 to 12.
    pub fn number(self) -> u8
        ensures { result ≡ refusal_number self }
    {
        match self {
            Refusal::TooFewLent(_) => 1,
            Refusal::WrongHeader(_) => 2,
            Refusal::TooManyLoops(_) => 3,
            Refusal::TooFewPoints(_) => 4,
            Refusal::TooManyPoints(_) => 5,
            Refusal::WrongLength(_) => 6,
            Refusal::BadReal(_) => 7,
            Refusal::OpenRing(_) => 8,
            Refusal::OneRing(_) => 9,
            Refusal::ManyRings(_) => 10,
            Refusal::OpenSurface(_) => 11,
            Refusal::LongStrip(_) => 12,
        }
    }

    pub fn place(self) -> usize
        ensures { result ≡ refusal_place self }
    {
        match self {
            Refusal::TooFewLent(p)
            | Refusal::WrongHeader(p)
            | Refusal::TooManyLoops(p)
            | Refusal::TooFewPoints(p)
            | Refusal::TooManyPoints(p)
            | Refusal::WrongLength(p)
            | Refusal::BadReal(p)
            | Refusal::OpenRing(p)
            | Refusal::OneRing(p)
            | Refusal::ManyRings(p)
            | Refusal::OpenSurface(p)
            | Refusal::LongStrip(p) => p,
        }
    }
}
