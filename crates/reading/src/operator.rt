// What an operator is and does, and what it takes.

/// An operator of Type 2 (TN5177, 3.2): the byte that is one, or the byte that stands behind the
/// escape byte 12.
#[derive(Clone, Copy, Debug, PartialEq, Eq)]
pub enum Operator {
    OneByte(u8),
    TwoByte(u8),
}

/// The list that a call names (TN5177, 4.7).
#[derive(Clone, Copy, Debug, PartialEq, Eq)]
pub enum Which {
    /// `callsubr`.
    Local,
    /// `callgsubr`.
    Global,
}

/// What an operator does.
#[derive(Clone, Copy, Debug, PartialEq, Eq)]
pub enum Kind {
    /// Declares hints, and clears the stack.
    Stem,
    /// Clears the stack.
    Clear,
    /// Takes a mask's bytes.
    Mask,
    /// Enters a subroutine.
    Call(Which),
    /// Goes back to the caller.
    Return,
    /// Ends everything.
    End,
    /// Is no operator that we take.
    Unknown,
}

/// How many of the operands that wait an operator takes itself. At the first one that clears the
/// stack one more may stand below them, the advance width (TN5177, 4.1).
#[derive(Clone, Copy, Debug, PartialEq, Eq)]
pub enum Takes {
    /// An even number.
    Pairs,
    /// So many, or fewer.
    UpTo(usize),
    /// Whatever there is.
    All,
}
