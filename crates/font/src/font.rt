// A font whose lists are well formed.
ghost use Rattle.std.specs.Prelude.{◌<◌};
ghost use Rattle.reading.specs.Tokens.{Bytes};

use crate::error::FontError;
use charstring::draft;
use index::{Width, check_list};
use reading::{Flat, FlattenError, Profile};

/// A font whose lists are well formed, and what each of its glyphs is run by.
#[derive(Clone, Copy, Debug)]
pub(crate) struct Font<'a> {
    pub(crate) charstrings: &'a [u8],
    pub(crate) globals: &'a [u8],
    pub(crate) locals: &'a [u8],
    pub(crate) profile: Profile,
    /// The tokens that each glyph may have.
    pub(crate) budget: u32,
    /// How many glyphs it has.
    pub(crate) count: u32,
    ghost charstring_bytes: { Bytes charstrings.now },
    ghost global_bytes: { Bytes globals.now },
    ghost local_bytes: { Bytes locals.now },
    ghost budget_fits: { budget < 4294967296 },
}

impl<'a> Font<'a> {
    ghost use Rattle.std.specs.Prelude.{◌≡◌};
    ghost use Rattle.reading.specs.Rules.{rules_of};
    ghost use Rattle.reading.specs.Answers.{flat_of, flattened, verdict};
    ghost use Rattle.charstring.specs.Run.{Begins};
    ghost use Rattle.font.specs.Glyphs.{run_of, Opened};

    /// Looks at the three lists.
    pub(crate) fn new(
        charstrings: &'a [u8],
        globals: &'a [u8],
        locals: &'a [u8],
        profile: Profile,
        budget: u32,
    ) -> Result<Font<'a>, FontError>
        ensures { Opened charstrings.now globals.now locals.now profile budget result }
    {
        check_list(globals, Width::Two).map_err(FontError::BadGlobals)?;
        check_list(locals, Width::Two).map_err(FontError::BadLocals)?;
        let count = check_list(charstrings, Width::Two).map_err(FontError::BadCharstrings)?;
        Ok(Font {
            charstrings,
            globals,
            locals,
            profile,
            budget,
            count,
        })
    }

    /// The verdict on a charstring of it, and at the start of room as many bytes of its flat string as there is room for.
    pub(crate) fn draft(&self, charstring: &[u8], room: &mut [u8]) -> Result<Flat, FlattenError>
        ensures verdict_is { flattened result ≡ verdict (rules_of self.now.profile) (run_of self.now charstring.now) }
        ensures begins { Begins room.new (flat_of (run_of self.now charstring.now)) }
    {
        draft(
            charstring,
            self.globals,
            self.locals,
            self.profile,
            self.budget,
            room,
        )
    }
}
