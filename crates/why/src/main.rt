// Says why a glyph is refused: a font part in, from standard input or a named file, and out the refusal,
// its token, and a line for each call that was open there. What is asked wrongly, or cannot be read, is
// said on standard error, and nothing is then written to standard output.
#![tactic(auto)]

mod arguments;
mod explaining;
mod sentences;
mod text;

use crate::arguments::{Asked, read_arguments};
use crate::explaining::explain_part;
use crate::sentences::say_reply;
use crate::text::say_why;
use part::{Answer, answer_source, read_full, tell_wrong, zeros};
use std::io;
use std::io::Read;

// One more byte than a font part has.
const READ: usize = 65537;

const EXPECTED: &str = "why [--words] [FILE]; without FILE the font part comes on standard input. \
    With --words the answer is in sentences.";

fn main(rt: HostRuntime) {
    match read_arguments(&rt) {
        Ok(asked) => answer_source(&rt, "why", asked.file, &asked),
        Err(wrong) => tell_wrong(&rt, &rt.stderr(), "why", wrong, EXPECTED),
    }
}

impl Answer for Asked {
    // Reads the font part and answers it; what comes behind so many bytes changes nothing. One more read
    // tells a shorter input's end from a read that failed.
    fn answer<R: Read>(&self, rt: &HostRuntime, from: &mut R) -> io::Result<()> {
        let mut input = zeros::<READ>();
        let n = read_full(from, &mut input);
        if n < READ {
            from.read(&mut [0u8; 1])?;
        }
        if self.words {
            answer_in_words(&rt.stdout(), &input[..n]);
        } else {
            answer_part(&rt.stdout(), &input[..n]);
        }
        Ok(())
    }
}

fn answer_part<P: Print>(out: &P, part: &[u8]) {
    let mut text = [0u8; 4096];
    let n = say_why(part, &mut text);
    let _ = out.write_all(&text[..n]);
}

fn answer_in_words<P: Print>(out: &P, part: &[u8]) {
    // three words a call, as `explain` tells C
    let mut words = [0u64; 192];
    let reply = explain_part(part, &mut words);
    say_reply(out, reply, part.len(), &words);
}
