// The rules that a charstring is read by.
ghost use Rattle.std.specs.Prelude.{◌≡◌};
ghost use Rattle.reading.specs.Rules.{meant, rules_of};

use index::Width;

/// A set of rules by its name.
#[derive(Clone, Copy, Debug, PartialEq, Eq)]
pub enum Profile {
    /// What the Rust takes.
    Plain,
    /// What TN5177 allows.
    Strict,
}

/// All that rule sets differ in.
#[derive(Clone, Copy, Debug, PartialEq, Eq)]
pub struct Rules {
    /// How many operands may wait on the stack.
    pub operands: usize,
    /// How many levels of calls there may be below the charstring.
    pub levels: u32,
    /// How many stem hints there may be.
    pub hints: usize,
    /// Whether `return` and `endchar` are operators: in Type 2 they are.
    pub ends: bool,
    /// Whether a Fixed index must be whole exactly, or as f32 rounds it.
    pub exact: bool,
    /// Whether no operand may wait at a mask whose length is fixed.
    pub clean: bool,
    /// Whether a charstring must end by endchar.
    pub finished: bool,
    /// How many bytes the count of a list has.
    pub width: Width,
}

impl From<Profile> for Rules {
    ghost use Rattle.std.specs.Prelude.{◌≡◌};
    ghost use Rattle.reading.specs.Rules.{meant, rules_of};

    ghost from_gives = { λ profile r. meant r ≡ rules_of profile };

    fn from(profile: Profile) -> Rules {
        match profile {
            Profile::Plain => Rules {
                operands: 48,
                levels: 63,
                hints: 65535,
                ends: true,
                exact: false,
                clean: false,
                finished: false,
                width: Width::Two,
            },
            Profile::Strict => Rules {
                operands: 48,
                levels: 10,
                hints: 96,
                ends: true,
                exact: true,
                clean: true,
                finished: true,
                width: Width::Two,
            },
        }
    }
}
