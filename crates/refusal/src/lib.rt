// Why a call is refused. Inside the core a refusal is an error; what is exported answers its number, which is 0 where nothing is
// refused.
#![tactic(auto)]

ghost use Rattle.std.specs.Prelude.{◌≡◌};
ghost use Rattle.refusal.specs.Number.{number, counted_as};

// The causes of 01's table, in the order of their numbers, 1 to 14.
#[derive(Clone, Copy, PartialEq, Eq, Debug)]
pub enum Refusal {
    // A sequence of more than 2,048 words.
    TooLong = 1,
    // A word that is neither a call nor the no-call.
    Unsound = 2,
    // A minimum outside 1 to 256.
    Minimum = 3,
    // A bucket count outside 1 to 1,024.
    Buckets = 4,
    // A search length below the minimum or above 2,048, or a window's outside 1 to 2,048.
    SearchLength = 5,
    // A workspace that is too short.
    Workspace = 6,
    // A tile buffer that is too short.
    Tiles = 7,
    // Words that end before the record does.
    CutOff = 8,
    // A first word that is no header.
    Header = 9,
    // A wrong trailer.
    Trailer = 10,
    // A buffer for the result that is too short.
    Room = 11,
    // A threshold above 1,000.
    Threshold = 12,
    // Records of different fish.
    Fish = 13,
    // Records of different counts.
    Counts = 14,
}

impl From<Refusal> for u32 {
    ghost from_gives = { λ refusal n. n ≡ number refusal };

    // The number of a refusal.
    fn from(refusal: Refusal) -> u32 {
        refusal as u32
    }
}

// The answer of an exported call that counts what it wrote: a refusal's number and 0, or 0 and the count.
#[repr(C)]
#[derive(Clone, Copy)]
pub struct Counted {
    pub refusal: u32,
    pub count: u32,
}

impl From<Result<u32, Refusal>> for Counted {
    ghost from_gives = { λ outcome answer. answer ≡ counted_as outcome };

    fn from(outcome: Result<u32, Refusal>) -> Counted {
        match outcome {
            Ok(count) => Counted { refusal: 0, count },
            Err(refusal) => Counted {
                refusal: u32::from(refusal),
                count: 0,
            },
        }
    }
}
