// The operations over INDEXes, each under the arguments that it takes.
use crate::arguments::Arguments;
use crate::lent::{LENT, Lent, lend};
use crate::line::Line;
use index::Width;

// 5: bytes. `0 COUNT TAKEN`.
pub(crate) fn read_index<'a>(mut args: Arguments<'a>) -> Option<Line<'a>> {
    let s = args.bytes()?;
    args.end()?;
    Some(Line::from(index::read_index(s, Width::Two)))
}

// 6: number, bytes.
pub(crate) fn read_entry<'a>(mut args: Arguments<'a>) -> Option<Line<'a>> {
    let number = args.word()?;
    let s = args.bytes()?;
    args.end()?;
    let part = index::entry_part(s, Width::Two, number);
    Some(entry_line(s, number, part))
}

// 7: n, n lengths, bytes, room. `0 N HEX`, `13 N`.
pub(crate) fn write_index<'a>(mut args: Arguments<'a>, lent: &'a mut Lent) -> Option<Line<'a>> {
    let Lent { lengths, room, .. } = lent;
    let lengths = args.words(lengths)?;
    let joined = args.bytes()?;
    let size = args.size()?;
    args.end()?;
    let room = lend(room, size, LENT)?;
    let answer = index_writing::write_index(lengths, joined, room);
    Some(Line::written(answer, room))
}

// 11: bytes. `0 COUNT`; `REASON ENTRY`, or the INDEX's refusal.
pub(crate) fn check_list<'a>(mut args: Arguments<'a>) -> Option<Line<'a>> {
    let s = args.bytes()?;
    args.end()?;
    Some(Line::from(index::check_list(s, Width::Two)))
}

// 12: number, bytes. A part does not tell its place, nor why it is empty: those are the plain reader's.
pub(crate) fn read_entry_by_view<'a>(mut args: Arguments<'a>) -> Option<Line<'a>> {
    let number = args.word()?;
    let s = args.bytes()?;
    args.end()?;
    let part = index_view::part_by_view(s, number);
    Some(entry_line(s, number, part))
}

// `0 PLACE LENGTH HEX`, where HEX is the part that was found for the entry. The line is marked where the part's
// length is not the one that the answer says, which is 0 in a refusal.
fn entry_line<'a>(s: &[u8], number: u32, part: &'a [u8]) -> Line<'a> {
    let answer = index::read_entry(s, Width::Two, number);
    let mut line = Line::from(answer);
    match answer {
        Ok(place) => {
            line.shows_part(part);
            line.marks(part.len() != place.size);
        }
        Err(_) => line.marks(!part.is_empty()),
    }
    line
}
