// Why a charstring is refused.
use number::Refuse;
use std::fmt;

/// Why a charstring is refused: 3 to 12, 15, and 16, which no run stops with.
#[derive(Clone, Copy, Debug, PartialEq, Eq)]
pub enum Refusal {
    /// 3: the budget of tokens is spent.
    BudgetSpent,
    /// 4: a number, an operator or a mask lacks bytes.
    BytesLacking,
    /// 5: more operands wait than the rules allow.
    TooManyOperands,
    /// 6: a byte starts no number, or an operator is not taken.
    UnknownOperator,
    /// 7: a call has no index, or one that is not whole.
    NoIndex,
    /// 8: a call's index does not stand last in the flat string.
    IndexNotLast,
    /// 9: a call names an entry that is not there.
    NoEntry,
    /// 10: calls nest deeper than the rules allow.
    TooDeep,
    /// 11: there are more stem hints than the rules allow.
    TooManyHints,
    /// 12: endchar has four operands or more, for a glyph made of two others.
    Composite,
    /// 15: operands wait at a mask whose length is fixed.
    OperandsAtMask,
    /// 16: the charstring comes to its end without endchar.
    NoEndchar,
}

impl Refuse for Refusal {
    ghost use Rattle.std.specs.Prelude.{ℕ, ◌<◌};
    ghost use Rattle.reading.specs.Answers.{number_of};
    ghost use Rattle.reading.specs.Refuse.{refusal_some};

    ghost refusal = { number_of };

    ghost not_0 = { refusal_some };

    fn number(self) -> u32 {
        match self {
            Refusal::BudgetSpent => 3,
            Refusal::BytesLacking => 4,
            Refusal::TooManyOperands => 5,
            Refusal::UnknownOperator => 6,
            Refusal::NoIndex => 7,
            Refusal::IndexNotLast => 8,
            Refusal::NoEntry => 9,
            Refusal::TooDeep => 10,
            Refusal::TooManyHints => 11,
            Refusal::Composite => 12,
            Refusal::OperandsAtMask => 15,
            Refusal::NoEndchar => 16,
        }
    }
}

/// The sentence that the programs print.
impl fmt::Display for Refusal {
    ghost use Rattle.std.specs.Prelude.{Some};
    ghost use Rattle.reading.specs.Sentences.{sentence};

    ghost output = { λ why. Some (sentence why) };

    fn fmt<W: fmt::Write>(&self, f: &mut fmt::Formatter<W>) -> fmt::Result {
        f.write_str(match self {
            Refusal::BudgetSpent => "the budget is spent",
            Refusal::BytesLacking => "a number, an operator or a mask lacks bytes",
            Refusal::TooManyOperands => "more than 48 operands wait",
            Refusal::UnknownOperator => "a byte starts no number, or an operator is not supported",
            Refusal::NoIndex => "a call has no index, or one that is not whole",
            Refusal::IndexNotLast => "a call's index does not stand last in the flat string",
            Refusal::NoEntry => "a call names a subroutine that is not there",
            Refusal::TooDeep => "calls nest over 64 strings deep in plain, over 11 in strict",
            Refusal::TooManyHints => "there are over 65535 hints in plain, over 96 in strict",
            Refusal::Composite =>
                "endchar has four operands or more, for a glyph made of two others",
            Refusal::OperandsAtMask => "operands wait at a mask whose length is fixed, in strict",
            Refusal::NoEndchar => "the charstring comes to its end without endchar, in strict",
        })
    }
}

/// A charstring's refusal, with what comes with it.
// (a struct with an `Option` is no plainer: it would want a ghost field to say which come alone)
#[derive(Clone, Copy, Debug, PartialEq, Eq)]
pub enum Stopped {
    /// 3 to 12, and the tokens: all that were run, with the refused one but for 3.
    At(Refusal, u32),
    /// 15 and 16, which come alone.
    Alone(Refusal),
}

impl Refuse for Stopped {
    ghost use Rattle.std.specs.Prelude.{ℕ, ◌<◌};
    ghost use Rattle.reading.specs.Answers.{stop_number};
    ghost use Rattle.reading.specs.Refuse.{stop_some};

    ghost refusal = { stop_number };

    ghost not_0 = { stop_some };

    fn number(self) -> u32 {
        match self {
            Stopped::At(why, _) => why.number(),
            Stopped::Alone(why) => why.number(),
        }
    }
}

/// The refusal's sentence, and the tokens that come with it: `the budget is spent after token 22`.
impl fmt::Display for Stopped {
    ghost use Rattle.std.specs.Prelude.{Some};
    ghost use Rattle.reading.specs.Sentences.{stop_sentence};

    ghost output = { λ why. Some (stop_sentence why) };

    fn fmt<W: fmt::Write>(&self, f: &mut fmt::Formatter<W>) -> fmt::Result {
        match self {
            Stopped::At(why, tokens) if *why == Refusal::BudgetSpent => {
                write!(f, "{why} after token {tokens}")
            }
            Stopped::At(why, tokens) => write!(f, "{why}, at token {tokens}"),
            Stopped::Alone(why) => write!(f, "{why}"),
        }
    }
}
