// The tiling's definition and laws, and the answer of a comparison.
#![tactic(auto)]

ghost use Rattle.std.specs.Prelude.{◌≡◌};
ghost use Rattle.tiling.specs.Outcome.{compared_as};

use refusal::Refusal;

// What the tiles of a comparison come to: how many there are, the words that they cover, and the score.
#[derive(Clone, Copy)]
pub struct Summary {
    pub tiles: u32,
    pub covered: u32,
    pub score: u32,
}

// The answer of an exported comparison: a refusal's number and zeros, or 0 and what the tiles come to.
#[repr(C)]
#[derive(Clone, Copy)]
pub struct Compared {
    pub refusal: u32,
    pub tiles: u32,
    pub covered: u32,
    pub score: u32,
}

impl From<Result<Summary, Refusal>> for Compared {
    ghost from_gives = { λ outcome answer. answer ≡ compared_as outcome };

    fn from(outcome: Result<Summary, Refusal>) -> Compared {
        match outcome {
            Ok(sum) => Compared {
                refusal: 0,
                tiles: sum.tiles,
                covered: sum.covered,
                score: sum.score,
            },
            Err(refusal) => Compared {
                refusal: u32::from(refusal),
                tiles: 0,
                covered: 0,
                score: 0,
            },
        }
    }
}
