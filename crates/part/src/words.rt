// The sentences that both programs say.
use crate::cut::NoPart;
use arrayvec::ArrayString;
use index::{Absence, Flaw, IndexError};
use std::fmt;
use std::fmt::{Display, Write};
use std::io::Error;

/// Whose flaw it is, said before it.
pub const GLOBALS: &str = ": the global list's ";

pub const LOCALS: &str = ": the local list's ";

/// What is wrong with a list, in words.
#[derive(Clone, Copy)]
pub struct Flawed(pub Flaw);

impl Display for Flawed {
    ghost use Rattle.std.specs.Prelude.{Some};
    ghost use Rattle.part.specs.Words.{flaw_words};

    ghost output = { λ flawed. Some (flaw_words flawed.0) };

    fn fmt<W: Write>(&self, f: &mut fmt::Formatter<W>) -> fmt::Result {
        match self.0 {
            Flaw::Index(IndexError::Lacking) => write!(f, "bytes end too soon"),
            Flaw::Index(IndexError::BadSize) => write!(f, "offset size is not 1 to 4"),
            Flaw::Entry(i, why) => {
                write!(f, "entry {i}")?;
                // never past the count: each that is looked at is below it
                f.write_str(match why {
                    Absence::PastCount => ": it is past the count",
                    Absence::ZeroOffset => ": an offset, or the list's last, is 0",
                    Absence::Descending => ": its offsets descend",
                    Absence::PastData => ": its offsets pass the data",
                })
            }
        }
    }
}

/// That a result of n bytes is longer than the room, which has so many. No clause can say what is
/// printed.
pub fn say_short<P: Print>(out: &P, n: usize, room: usize) {
    say(
        out,
        format_args!(
            ": the result is longer than the room for it: it has {n} bytes, and the room {room}\n"
        ),
    );
}

/// That `size` bytes are no font part, and why. No clause can say what is printed.
pub fn say_no_part<P: Print>(out: &P, size: usize, why: NoPart) {
    say(
        out,
        format_args!("the input is no font part: it has {size} bytes"),
    );
    match why {
        NoPart::Headless => say(out, ", fewer than the three lengths take"),
        NoPart::Says(n) => say(out, format_args!(", and by its lengths it would have {n}")),
    }
}

/// Why a call of the system on `name` failed, in the system's words: std puts a number behind them,
/// which is left out. No clause can say what is printed.
pub fn tell_failed<P: Print>(err: &P, program: &str, name: &[u8], error: Error) {
    let mut text = ArrayString::<320>::new();
    let _ = write!(text, "{error}");
    let words = without_number(text.as_str());
    say(err, format_args!("{program}: "));
    say_bytes(err, name);
    say(err, format_args!(": {words}\n"));
}

fn without_number(text: &str) -> &str {
    match text.split_once(" (os error ") {
        Some((words, _)) => words,
        None => text,
    }
}

/// Says bytes as they stand, as far as they go out: a file's name and an argument need not be text. No clause can say what
/// is printed.
pub fn say_bytes<P: Print>(out: &P, bytes: &[u8]) {
    let _ = out.write_all(bytes);
}

/// Says it as far as it goes out. No clause can say what is printed.
pub fn say<P: Print, D: Display + Drop>(out: &P, words: D) {
    let _ = out.print(words);
}
