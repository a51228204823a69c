// What a line says of each crate's answers and refusals, behind their number.
use crate::line::Line;
use font::FontError;
use index::{EntryError, Extent, Flaw, IndexError, Place};
use number::{CallError, NoRoom, NotWhole, ReadError, Refuse};
use reading::{Flat, FlattenError, MarkError, Stopped};

// Puts its values into a line: none, where it has no method of its own.
pub(crate) trait Values: Copy {
    fn put(self, _line: &mut Line<'_>) {}
}

// (thrice, since one impl for all that print would take in the enums below)
impl Values for i32 {
    fn put(self, line: &mut Line<'_>) {
        line.value(self);
    }
}

impl Values for u32 {
    fn put(self, line: &mut Line<'_>) {
        line.value(self);
    }
}

impl Values for usize {
    fn put(self, line: &mut Line<'_>) {
        line.value(self);
    }
}

// A value and how many bytes it takes.
impl Values for (i32, usize) {
    fn put(self, line: &mut Line<'_>) {
        line.value(self.0);
        line.value(self.1);
    }
}

// The same behind the kind.
impl Values for (u8, i32, usize) {
    fn put(self, line: &mut Line<'_>) {
        line.value(self.0);
        line.value(self.1);
        line.value(self.2);
    }
}

impl Values for ReadError {}

impl Values for NotWhole {}

impl Values for CallError {}

impl Values for NoRoom {
    fn put(self, line: &mut Line<'_>) {
        line.value(self.0);
    }
}

impl Values for number::WriteError {
    fn put(self, line: &mut Line<'_>) {
        if let number::WriteError::NoRoom(needed) = self {
            line.value(needed);
        }
    }
}

impl Values for Extent {
    fn put(self, line: &mut Line<'_>) {
        line.value(self.entries);
        line.value(self.taken);
    }
}

impl Values for IndexError {}

impl Values for Place {
    fn put(self, line: &mut Line<'_>) {
        line.value(self.start);
        line.value(self.size);
    }
}

impl Values for EntryError {}

// The entry that is wrong with a list; none where its INDEX is not read.
impl Values for Flaw {
    fn put(self, line: &mut Line<'_>) {
        if let Flaw::Entry(i, _) = self {
            line.value(i);
        }
    }
}

impl Values for index_writing::WriteError {
    fn put(self, line: &mut Line<'_>) {
        if let index_writing::WriteError::NoRoom(needed) = self {
            line.value(needed);
        }
    }
}

// The width is `-` for none, `5`, or a Fixed as `327680/65536`.
impl Values for Flat {
    fn put(self, line: &mut Line<'_>) {
        line.value(self.length);
        line.value(self.tokens);
        match self.advance {
            Some(operand) => line.value(operand),
            None => line.value('-'),
        }
    }
}

// The tokens, where they come with a run's refusal.
impl Values for Stopped {
    fn put(self, line: &mut Line<'_>) {
        if let Stopped::At(_, tokens) = self {
            line.value(tokens);
        }
    }
}

impl Values for FlattenError {
    fn put(self, line: &mut Line<'_>) {
        match self {
            FlattenError::BadGlobals(flaw) => tell_flaw(flaw, line),
            FlattenError::BadLocals(flaw) => tell_flaw(flaw, line),
            FlattenError::Refused(why) => why.put(line),
            FlattenError::NoRoom { length, tokens } => {
                line.value(length);
                line.value(tokens);
            }
        }
    }
}

impl Values for MarkError {
    fn put(self, line: &mut Line<'_>) {
        match self {
            MarkError::Flatten(e) => e.put(line),
            MarkError::ShortRow => {}
        }
    }
}

impl Values for FontError {
    fn put(self, line: &mut Line<'_>) {
        match self {
            FontError::BadGlobals(flaw) => tell_flaw(flaw, line),
            FontError::BadLocals(flaw) => tell_flaw(flaw, line),
            FontError::BadCharstrings(flaw) => tell_flaw(flaw, line),
            FontError::NoGlyph(place) => line.value(place),
            FontError::Refused(glyph, why) => {
                line.value(glyph);
                why.put(line);
            }
            FontError::NoRoom(needed) => line.value(needed),
            FontError::TooMany | FontError::TooLong => {}
        }
    }
}

// The entry that is wrong with a list, and the refusal's number.
fn tell_flaw(flaw: Flaw, line: &mut Line<'_>) {
    flaw.put(line);
    line.value(flaw.number());
}
