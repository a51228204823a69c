// What flattening and explaining a charstring answer.
use crate::refusal::Stopped;
use index::Flaw;
use number::{Operand, Refuse};

/// What is told of a flat string.
#[derive(Clone, Copy, Debug, PartialEq, Eq)]
pub struct Flat {
    /// Its length, in bytes.
    pub length: usize,
    /// How many tokens were run.
    pub tokens: u32,
    /// What is added to the font's nominal width; none where its default width holds (TN5177, 4.1).
    pub advance: Option<Operand>,
}

/// Why a charstring is not flattened.
#[derive(Clone, Copy, Debug, PartialEq, Eq)]
pub enum FlattenError {
    /// 1: the global list is not well formed, and why.
    BadGlobals(Flaw),
    /// 2: the local list is not well formed, and why.
    BadLocals(Flaw),
    /// 3 to 12, 15 or 16: the charstring is refused.
    Refused(Stopped),
    /// 13: the flat string is longer than the room.
    NoRoom {
        /// Its length, in bytes: the room that is needed.
        length: usize,
        /// How many tokens were run.
        tokens: u32,
    },
}

impl Refuse for FlattenError {
    ghost use Rattle.std.specs.Prelude.{ℕ, ◌<◌};
    ghost use Rattle.reading.specs.Answers.{flatten_refusal};
    ghost use Rattle.reading.specs.Refuse.{flatten_some};

    ghost refusal = { flatten_refusal };

    ghost not_0 = { flatten_some };

    fn number(self) -> u32 {
        match self {
            FlattenError::BadGlobals(_) => 1,
            FlattenError::BadLocals(_) => 2,
            FlattenError::Refused(why) => why.number(),
            FlattenError::NoRoom { .. } => 13,
        }
    }
}

/// Why a charstring is not flattened with rows.
#[derive(Clone, Copy, Debug, PartialEq, Eq)]
pub enum MarkError {
    /// It is not flattened, and why.
    Flatten(FlattenError),
    /// 43: a row is too short for its list.
    ShortRow,
}

impl From<FlattenError> for MarkError {
    ghost use Rattle.std.specs.Prelude.{◌≡◌};
    ghost use Rattle.reading.specs.declared.answer.MarkError.TheVariants.{Flatten};

    ghost from_gives = { λ e r. r ≡ Flatten e };

    fn from(e: FlattenError) -> MarkError {
        MarkError::Flatten(e)
    }
}

impl Refuse for MarkError {
    ghost use Rattle.std.specs.Prelude.{ℕ, ◌<◌};
    ghost use Rattle.reading.specs.Entered.{mark_refusal};
    ghost use Rattle.reading.specs.Refuse.{mark_some};

    ghost refusal = { mark_refusal };

    ghost not_0 = { mark_some };

    fn number(self) -> u32 {
        match self {
            MarkError::Flatten(why) => why.number(),
            MarkError::ShortRow => 43,
        }
    }
}

/// What explaining a charstring answers.
#[derive(Clone, Copy, Debug, PartialEq, Eq)]
pub struct Explained {
    /// The verdict on it, whatever the room.
    pub verdict: Result<Flat, FlattenError>,
    /// How many calls were open where its run was refused; 0 with another answer.
    pub calls: usize,
}
