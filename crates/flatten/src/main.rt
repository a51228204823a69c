// Flattens one glyph or a whole font: a font part in, from standard input or a named file, and its
// flat string, or the INDEX of all, or its refusal out, in a line that a person can read. What is no font part, or is asked wrongly, is said
// on standard error, and nothing is then written to standard output. The exit status is 0 (DECISIONS 55).
#![tactic(auto)]

mod answer;
mod arguments;
mod flattening;

use crate::answer::{tell, tell_no_part};
use crate::arguments::{Asked, read_arguments};
use crate::flattening::flatten_part;
use part::{Answer, answer_source, read_full, say_bytes, tell_wrong, zeros};
use std::io;
use std::io::Read;

/// The most bytes of the input, and of the result. Both stand on the stack.
const LIMIT: usize = 1048576;

const EXPECTED: &str = "flatten [--font] [--strict] [--budget N] [FILE], \
    where N is a number of tokens, at most 4294967295; without FILE the font part comes on standard input. \
    With --font it is a whole font's. It has at most 1048576 bytes, and so has the result.";

fn main(rt: HostRuntime) {
    match read_arguments(&rt) {
        Ok(asked) => answer_source(&rt, "flatten", asked.file, &asked),
        Err(wrong) => tell_wrong(&rt, &rt.stderr(), "flatten", wrong, EXPECTED),
    }
}

impl Answer for Asked {
    // Reads the font part and answers it. One more read tells a longer input from its end, and a read
    // that failed from both.
    #[inline(never)]
    fn answer<R: Read>(&self, rt: &HostRuntime, from: &mut R) -> io::Result<()> {
        let mut input = zeros::<LIMIT>();
        let n = read_full(from, &mut input);
        let mut more = [0u8; 1];
        if from.read(&mut more)? == 0 {
            answer_part(rt, &input[..n], *self);
        } else {
            // (by bytes: printing would want a buffer on the stack)
            say_bytes(
                &rt.stderr(),
                b"flatten: the input is too long: a font part of more than 1048576 bytes is not taken.\n",
            );
        }
        Ok(())
    }
}

// (not inlined: the room stands on the stack only where there is a part to answer)
#[inline(never)]
fn answer_part(rt: &HostRuntime, part: &[u8], asked: Asked) {
    let mut room = zeros::<LIMIT>();
    match flatten_part(part, asked.whole, asked.profile, asked.budget, &mut room) {
        Ok(answer) => tell(&rt.stdout(), answer, &room),
        Err(why) => tell_no_part(&rt.stderr(), part.len(), why),
    }
}
