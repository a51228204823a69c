// A line as an operation makes it: the answer's number and the values, and what follows of what was lent. A struct by
// value, so that an operation has nothing to do with output.
use crate::lent::{LENT, LENT_WORD};
use crate::values::Values;
use arrayvec::ArrayString;
use number::{Refuse, answer_number};
use std::fmt::{Display, Write};

#[derive(Clone, Copy, Debug)]
pub(crate) struct Line<'a> {
    // The number and the values: one and five of them always fit.
    pub(crate) text: ArrayString<128>,
    // The bytes that HEX shows.
    pub(crate) shown: Option<&'a [u8]>,
    // The globals' row and the locals', which follow.
    pub(crate) rows: Option<(&'a [u8], &'a [u8])>,
    // Open calls, which follow: three words for each.
    pub(crate) calls: &'a [u64],
    // Whether a byte or a word that is not reported was changed, or an answer contradicts itself.
    pub(crate) marked: bool,
}

// The line starts with the answer's number, and the values that come with it.
impl<'a, T: Values, E: Values + Refuse> From<Result<T, E>> for Line<'a> {
    fn from(answer: Result<T, E>) -> Self {
        let mut line = Line::starts_with(answer_number(answer));
        match answer {
            Ok(found) => found.put(&mut line),
            Err(why) => why.put(&mut line),
        }
        line
    }
}

impl<'a> Line<'a> {
    // The line of a record that asks for nothing.
    pub(crate) fn unasked() -> Self {
        Line::starts_with('?')
    }

    // The line of an answer that says how many bytes of a room were written.
    pub(crate) fn written<E: Values + Refuse>(answer: Result<usize, E>, room: &'a [u8]) -> Self {
        let mut line = Line::from(answer);
        line.reports(answer.ok(), room);
        line
    }

    pub(crate) fn value<D: Display + Drop>(&mut self, value: D) {
        self.put(' ');
        self.put(value);
    }

    // The answer reports so many bytes of the room that it was lent, and HEX shows them, or it reports none. No byte is
    // shown that was not lent, whatever the answer says.
    pub(crate) fn reports(&mut self, written: Option<usize>, room: &'a [u8]) {
        let (reported, rest) = room.split_at(written.unwrap_or(0).min(room.len()));
        if written.is_some() {
            self.shown = Some(reported);
        }
        self.marks(rest.iter().any(|b| *b != LENT));
    }

    // HEX shows a part of the record.
    pub(crate) fn shows_part(&mut self, part: &'a [u8]) {
        self.shown = Some(part);
    }

    // The answer leaves these rows.
    pub(crate) fn shows_rows(&mut self, globals: &'a [u8], locals: &'a [u8]) {
        self.rows = Some((globals, locals));
    }

    // The answer counts so many open calls, and has told as many as the words lent have room for.
    pub(crate) fn tells(&mut self, open: usize, words: &'a [u64]) {
        self.value(open);
        let (told, rest) = words.split_at(3 * open.min(words.len() / 3));
        self.calls = told;
        self.marks(rest.iter().any(|w| *w != LENT_WORD));
    }

    // A byte that is not reported was changed, or the answer contradicts itself, if `wrong`.
    pub(crate) fn marks(&mut self, wrong: bool) {
        self.marked |= wrong;
    }

    fn starts_with<D: Display + Drop>(text: D) -> Self {
        let mut line = Line {
            text: ArrayString::new(),
            shown: None,
            rows: None,
            calls: &[],
            marked: false,
        };
        line.put(text);
        line
    }

    fn put<D: Display + Drop>(&mut self, text: D) {
        let _ = write!(self.text, "{text}");
    }
}
