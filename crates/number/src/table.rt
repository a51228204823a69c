// What tells the numbers of charstrings from those of DICTs.
ghost use Rattle.std.specs.Prelude.{◌≡◌, Bool};
ghost use Rattle.number.specs.Number.{last_row};
ghost use Rattle.number.specs.Table.{last_operand};

use crate::Operand;

/// A table of numbers. Both have the forms of one, two and three bytes; they differ in the form of five.
pub(crate) trait Table {
    ghost dict: { Bool };

    // the first byte of the form of five bytes
    fn five() -> u8
        ensures { result ≡ (last_row dict).first };

    // the operand that its four bytes are
    fn of_five(value: i32) -> Operand
        ensures { result ≡ last_operand dict value };
}

/// The numbers of charstrings: 255 starts a Fixed.
pub(crate) struct Charstring;

/// The numbers of DICTs: 29 starts an integer of 32 bits.
pub(crate) struct Dict;

impl Table for Charstring {
    ghost use Rattle.std.specs.Prelude.{false};

    ghost dict = { false };

    fn five() -> u8 {
        255
    }

    fn of_five(value: i32) -> Operand {
        Operand::Fixed(value)
    }
}

impl Table for Dict {
    ghost use Rattle.std.specs.Prelude.{true};

    ghost dict = { true };

    fn five() -> u8 {
        29
    }

    fn of_five(value: i32) -> Operand {
        Operand::Integer(value)
    }
}
