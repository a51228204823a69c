// The operations over the crate number, each under the arguments that it takes.
use crate::arguments::Arguments;
use crate::lent::{LENT, Lent, lend};
use crate::line::Line;
use number::Operand;

// 1: bytes. `0 K V W`: the kind, 1 for a Fixed, the value and how many bytes.
pub(crate) fn read_charstring_number<'a>(mut args: Arguments<'a>) -> Option<Line<'a>> {
    let s = args.bytes()?;
    args.end()?;
    let answer = number::read_charstring_number(s);
    Some(Line::from(answer.map(|(o, taken)| (kind_of(o), value_of(o), taken))))
}

// 2: bytes. `0 V W`.
pub(crate) fn read_dict_integer<'a>(mut args: Arguments<'a>) -> Option<Line<'a>> {
    let s = args.bytes()?;
    args.end()?;
    let answer = number::read_dict_integer(s);
    Some(Line::from(answer.map(|(o, taken)| (value_of(o), taken))))
}

// 3: kind, value, room. `0 N HEX`, `13 N`.
pub(crate) fn write_charstring_number<'a>(
    mut args: Arguments<'a>,
    lent: &'a mut Lent,
) -> Option<Line<'a>> {
    let operand = args.operand()?;
    let size = args.size()?;
    args.end()?;
    let room = lend(&mut lent.room, size, LENT)?;
    let answer = number::write_charstring_number(operand, room);
    Some(Line::written(answer, room))
}

// 4: value, room. The same.
pub(crate) fn write_dict_integer<'a>(
    mut args: Arguments<'a>,
    lent: &'a mut Lent,
) -> Option<Line<'a>> {
    let value = args.signed()?;
    let size = args.size()?;
    args.end()?;
    let room = lend(&mut lent.room, size, LENT)?;
    let answer = number::write_dict_integer(value, room);
    Some(Line::written(answer, room))
}

// 9: kind, value, profile.
pub(crate) fn call_index<'a>(mut args: Arguments<'a>) -> Option<Line<'a>> {
    let operand = args.operand()?;
    let strict = args.flag()?;
    args.end()?;
    Some(Line::from(number::call_index(operand, strict)))
}

// 10: kind, value, profile, count.
pub(crate) fn callee<'a>(mut args: Arguments<'a>) -> Option<Line<'a>> {
    let operand = args.operand()?;
    let strict = args.flag()?;
    let count = args.word()?;
    args.end()?;
    Some(Line::from(number::callee_of(operand, strict, count)))
}

fn kind_of(o: Operand) -> u8 {
    match o {
        Operand::Integer(_) => 0,
        Operand::Fixed(_) => 1,
    }
}

fn value_of(o: Operand) -> i32 {
    match o {
        Operand::Integer(value) | Operand::Fixed(value) => value,
    }
}
