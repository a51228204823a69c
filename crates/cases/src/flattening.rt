// The operations over the crates charstring and font, under the arguments that all take.
use crate::arguments::Arguments;
use crate::lent::{LENT, LENT_WORD, Lent, lend, lend_row};
use crate::line::Line;
use reading::Profile;

// 8: profile, budget, room, charstring, globals, locals. `0 N TOKENS WIDTH HEX`; `1 ENTRY REASON` or `1 REASON`, and the
// same for 2; `9 TOKENS`, or `15` alone.
pub(crate) fn flatten<'a>(mut args: Arguments<'a>, lent: &'a mut Lent) -> Option<Line<'a>> {
    let asked = Asked::take(&mut args)?;
    let strings = Strings::take(&mut args)?;
    args.end()?;
    let room = lend(&mut lent.room, asked.size, LENT)?;
    let answer = charstring::flatten(
        strings.charstring,
        strings.globals,
        strings.locals,
        asked.profile,
        asked.budget,
        room,
    );
    let mut line = Line::from(answer);
    line.reports(answer.ok().map(|flat| flat.length), room);
    Some(line)
}

// 33: the same of a whole font, with its CharStrings INDEX in the charstring's place. `0 N HEX`; `9 GLYPH TOKENS` or
// `15 GLYPH`; 26 as 1 and 2.
pub(crate) fn flatten_font<'a>(mut args: Arguments<'a>, lent: &'a mut Lent) -> Option<Line<'a>> {
    let asked = Asked::take(&mut args)?;
    let strings = Strings::take(&mut args)?;
    args.end()?;
    let room = lend(&mut lent.room, asked.size, LENT)?;
    let answer = font::flatten_font(
        strings.charstring,
        strings.globals,
        strings.locals,
        asked.profile,
        asked.budget,
        room,
    );
    Some(Line::written(answer, room))
}

// 34: profile, budget, room, n, n numbers of glyphs, and then the three of 33. A glyph is told by its place, and `22` and
// `25 PLACE` come too.
pub(crate) fn flatten_glyphs<'a>(mut args: Arguments<'a>, lent: &'a mut Lent) -> Option<Line<'a>> {
    let asked = Asked::take(&mut args)?;
    let Lent { lengths, room, .. } = lent;
    let numbers = args.words(lengths)?;
    let strings = Strings::take(&mut args)?;
    args.end()?;
    let room = lend(room, asked.size, LENT)?;
    let answer = font::flatten_glyphs(
        strings.charstring,
        numbers,
        strings.globals,
        strings.locals,
        asked.profile,
        asked.budget,
        room,
    );
    Some(Line::written(answer, room))
}

// 32: those of 8, and then the globals' row and the locals' as lent. A row that is longer than what is lent for it
// asks for nothing. The rows behind HEX; `43`.
pub(crate) fn flatten_marked<'a>(mut args: Arguments<'a>, lent: &'a mut Lent) -> Option<Line<'a>> {
    let asked = Asked::take(&mut args)?;
    let strings = Strings::take(&mut args)?;
    let globals_before = args.bytes()?;
    let locals_before = args.bytes()?;
    args.end()?;
    let Lent {
        room,
        globals_row,
        locals_row,
        ..
    } = lent;
    let globals = lend_row(globals_row, globals_before)?;
    let locals = lend_row(locals_row, locals_before)?;
    let room = lend(room, asked.size, LENT)?;
    let answer = charstring::flatten_marked(
        strings.charstring,
        strings.globals,
        strings.locals,
        asked.profile,
        asked.budget,
        room,
        globals,
        locals,
    );
    let mut line = Line::from(answer);
    line.reports(answer.ok().map(|flat| flat.length), room);
    match answer {
        Ok(_) => line.shows_rows(globals, locals),
        Err(_) => line.marks(globals_before != &*globals || locals_before != &*locals),
    }
    Some(line)
}

// 64: profile, budget, words, charstring, globals, locals. So many of the words are lent. The verdict, how many calls are
// open, and then those that the words have room for.
pub(crate) fn explain<'a>(mut args: Arguments<'a>, lent: &'a mut Lent) -> Option<Line<'a>> {
    let asked = Asked::take(&mut args)?;
    let strings = Strings::take(&mut args)?;
    args.end()?;
    let words = lend(&mut lent.words, asked.size, LENT_WORD)?;
    let answer = charstring::explain(
        strings.charstring,
        strings.globals,
        strings.locals,
        asked.profile,
        asked.budget,
        words,
    );
    let mut line = Line::from(answer.verdict);
    line.tells(answer.calls, words);
    Some(line)
}

// What all of them begin with. 64 has the number of words in the place of the room.
#[derive(Clone, Copy, Debug)]
struct Asked {
    profile: Profile,
    budget: u32,
    size: usize,
}

impl Asked {
    fn take(args: &mut Arguments<'_>) -> Option<Self> {
        Some(Asked {
            profile: args.profile()?,
            budget: args.word()?,
            size: args.size()?,
        })
    }
}

// The charstring, or the CharStrings INDEX in its place, and the lists.
#[derive(Clone, Copy, Debug)]
struct Strings<'a> {
    charstring: &'a [u8],
    globals: &'a [u8],
    locals: &'a [u8],
}

impl<'a> Strings<'a> {
    fn take(args: &mut Arguments<'a>) -> Option<Self> {
        Some(Strings {
            charstring: args.bytes()?,
            globals: args.bytes()?,
            locals: args.bytes()?,
        })
    }
}
