// Why glyphs of a font are not flattened.
use index::Flaw;
use index_writing::TooLong;
use number::Refuse;
use reading::Stopped;

/// Why glyphs of a font are not flattened, in the order in which it is looked for.
#[derive(Clone, Copy, Debug, PartialEq, Eq)]
pub enum FontError {
    /// 1: the global list is not well formed, and why.
    BadGlobals(Flaw),
    /// 2: the local list is not well formed, and why.
    BadLocals(Flaw),
    /// 26: the CharStrings INDEX is not well formed, and why.
    BadCharstrings(Flaw),
    /// 22: over 65535 glyphs are asked for.
    TooMany,
    /// 25: the first place that is refused, for the font has no glyph of the number that stands there.
    NoGlyph(u32),
    /// 3 to 12, 15 or 16: the first place that is refused, and why its glyph is. In a whole font the place is the glyph's number.
    Refused(u32, Stopped),
    /// 23: the last offset is over 4294967295.
    TooLong,
    /// 13: so many bytes are needed.
    NoRoom(usize),
}

impl From<TooLong> for FontError {
    ghost use Rattle.std.specs.Prelude.{◌≡◌};
    ghost use Rattle.font.specs.declared.error.FontError.TheVariants.{TooLong};

    ghost from_gives = { λ e r. r ≡ TooLong };

    fn from(_: TooLong) -> FontError {
        Self::TooLong
    }
}

impl Refuse for FontError {
    ghost use Rattle.std.specs.Prelude.{ℕ, ◌<◌};
    ghost use Rattle.font.specs.Font.{font_refusal};
    ghost use Rattle.font.specs.Refuse.{font_some};

    ghost refusal = { font_refusal };

    ghost not_0 = { font_some };

    fn number(self) -> u32 {
        match self {
            FontError::BadGlobals(_) => 1,
            FontError::BadLocals(_) => 2,
            FontError::BadCharstrings(_) => 26,
            FontError::TooMany => 22,
            FontError::NoGlyph(_) => 25,
            FontError::Refused(_, why) => why.number(),
            FontError::TooLong => 23,
            FontError::NoRoom(_) => 13,
        }
    }
}
