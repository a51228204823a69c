// The glyphs of a font that are asked for, and the run of one of them.
ghost use Rattle.std.specs.Prelude.{◌≡◌, ◌≤◌};
ghost use Rattle.font.specs.Code.{choice_of};

use crate::choice::Choice;
use crate::error::FontError;
use crate::font::Font;
use index::{Width, entry_part};
use reading::FlattenError;

/// The glyphs of a font that are asked for.
#[derive(Clone, Copy, Debug)]
pub(crate) struct Glyphs<'a> {
    pub(crate) font: Font<'a>,
    pub(crate) choice: Choice<'a>,
    /// How many are asked for.
    pub(crate) many: u16,
    ghost few: { many ≤ 65535 },
    ghost counted: { (choice_of choice).many ≡ many },
}

impl Glyphs<'_> {
    ghost use Rattle.std.specs.Prelude.{◌≡◌, ◌<◌};
    ghost use Rattle.charstring.specs.Run.{Begins};
    ghost use Rattle.font.specs.Font.{font_flattened};
    ghost use Rattle.font.specs.Code.{at_place, string_of};
    ghost use Rattle.font.specs.Glyphs.{asked_of};

    /// Runs the glyph at place i; how long its flat string is, which comes to stand at the start of room as far as it fits.
    pub(crate) fn run(&self, i: u16, room: &mut [u8]) -> Result<usize, FontError>
        requires { i < self.now.many }
        ensures answer { font_flattened result ≡ at_place i (asked_of self.now i) }
        ensures begins { Begins room.new (string_of (asked_of self.now i)) }
    {
        let place = u32::from(i);
        let number = match self.choice.number(place) {
            Some(number) if number < self.font.count => number,
            _ => return Err(FontError::NoGlyph(place)),
        };
        let charstring = entry_part(self.font.charstrings, Width::Two, number);
        match self.font.draft(charstring, room) {
            Ok(flat) => Ok(flat.length),
            Err(FlattenError::Refused(why)) => Err(FontError::Refused(place, why)),
            // no other comes: both lists are well formed, and a draft wants no room (no `From`: it would want the place)
            Err(FlattenError::BadGlobals(flaw)) => Err(FontError::BadGlobals(flaw)),
            Err(FlattenError::BadLocals(flaw)) => Err(FontError::BadLocals(flaw)),
            Err(FlattenError::NoRoom { length, .. }) => Err(FontError::NoRoom(length)),
        }
    }
}
