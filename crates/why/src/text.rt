// What is printed: an answer's line, and a line for each open call.
ghost use Rattle.std.specs.Prelude.{◌≡◌, Err, [], ◌∷◌, ◌++◌, ◌+◌, ◌*◌, ◌<◌, ◌≤◌, length, drop};
ghost use Rattle.io.specs.Counts.{IsPrefixLen};
ghost use Rattle.number.specs.Answer.{tokens_or};
ghost use Rattle.reading.specs.Answers.{flattened, stop_values};
ghost use Rattle.why.specs.Decimal.{decimal};
ghost use Rattle.why.specs.Why.{pair_line, answer_line, said};
ghost use Rattle.why.specs.Code.{tokens_in, word_letter, word_line, word_lines};

use crate::explaining::explain_part;
use arrayvec::ArrayString;
use number::Refuse;
use reading::{Flat, FlattenError, Stopped};

// 4,096 bytes hold an answer's line and those of 63 calls.
type Text = ArrayString<4096>;

/// Puts what is printed for these bytes at the start of out, and answers how many bytes that is.
// (out is lent, for the contract and its theorem say what is left there)
pub(crate) fn say_why(part: &[u8], out: &mut [u8]) -> usize
    requires { 4096 ≤ length out.old }
    ensures value { result ≡ length (said part.now) }
    ensures out_after { out.new ≡ said part.now ++ drop result out.old }
    ensures prefix_len { IsPrefixLen result out.new }
{
    let text = why_text(part);
    let bytes = text.as_str().as_bytes();
    let n = bytes.len();
    out[..n].copy_from_slice(bytes);
    n
}

// What is printed for these bytes.
fn why_text(part: &[u8]) -> Text
    ensures { result.bytes ≡ said part.now }
{
    let mut text = Text::new();
    // three words a call, as `explain` tells C
    let mut words = [0u64; 192];
    match explain_part(part, &mut words) {
        Ok(explained) => {
            put_answer(&mut text, explained.verdict);
            put_calls(&mut text, &words, explained.calls);
        }
        Err(why) => put_pair(&mut text, u64::from(why.number()), 0),
    }
    text
}

// Adds the line of an answer.
#[tactic(auto, using(crate::proofs::TextLaws::accepted_added, crate::proofs::TextLaws::refused_added))]
fn put_answer(text: &mut Text, answer: Result<Flat, FlattenError>)
    requires { length text.old.bytes + 42 ≤ 4096 }
    ensures added { text.new.bytes ≡ text.old.bytes ++ answer_line (flattened answer) }
    ensures short { length text.new.bytes ≤ length text.old.bytes + 42 }
{
    match answer {
        Ok(_) => text.push_str("0\n"),
        Err(why) => put_pair(text, u64::from(why.number()), u64::from(tokens_of(why))),
    }
}

// The tokens that come with a refusal, or 0.
#[tactic(auto, unfolding(number::specs::Answer::tokens_or))]
fn tokens_of(why: FlattenError) -> u32
    ensures { result ≡ tokens_in (flattened (Err why)) }
{
    match why {
        FlattenError::BadGlobals(_) => 0,
        FlattenError::BadLocals(_) => 0,
        FlattenError::Refused(why) => stop_tokens(why),
        FlattenError::NoRoom { tokens, .. } => tokens,
    }
}

#[tactic(auto, unfolding(number::specs::Answer::tokens_or))]
pub(crate) fn stop_tokens(why: Stopped) -> u32
    ensures { result ≡ tokens_or 0 (stop_values why) }
{
    match why {
        Stopped::At(_, tokens) => tokens,
        Stopped::Alone(_) => 0,
    }
}

// Adds a line for each call.
#[tactic(auto, using(crate::proofs::TextLaws::lines_begun, crate::proofs::TextLaws::lines_begun_next))]
fn put_calls(text: &mut Text, words: &[u64], calls: usize)
    requires fits { length text.old.bytes + 44 * calls ≤ 4096 }
    requires enough { 3 * calls ≤ length words.now }
    ensures { text.new.bytes ≡ text.old.bytes ++ word_lines calls words.now }
{
    for i in 0..calls {
        let w = 3 * i;
        put_call(text, words[w], words[w + 1], words[w + 2]);
    }
}

// Adds the line of one call.
#[tactic(auto, using(crate::proofs::TextLaws::call_added))]
fn put_call(text: &mut Text, list: u64, entry: u64, offset: u64)
    requires { length text.old.bytes + 44 ≤ 4096 }
    ensures added { text.new.bytes ≡ text.old.bytes ++ word_line list entry offset }
    ensures short { length text.new.bytes ≤ length text.old.bytes + 44 }
{
    text.push(letter_of(list));
    text.push(' ');
    put_pair(text, entry, offset);
}

fn letter_of(list: u64) -> char
    ensures { result ≡ word_letter list }
{
    if list == 0 { 'L' } else { 'G' }
}

// Adds two numbers, a space between them, and the line's end.
#[tactic(auto, using(crate::proofs::TextLaws::pair_added))]
fn put_pair(text: &mut Text, a: u64, b: u64)
    requires { length text.old.bytes + 42 ≤ 4096 }
    ensures added { text.new.bytes ≡ text.old.bytes ++ pair_line a b }
    ensures short { length text.new.bytes ≤ length text.old.bytes + 42 }
{
    put_decimal(text, a, ' ');
    put_decimal(text, b, '\n');
}

// Adds a number, and what stands behind it.
#[tactic(auto, using(crate::proofs::TextLaws::decimal_added))]
fn put_decimal(text: &mut Text, n: u64, end: char)
    requires ascii { end < 128 }
    requires fits { length text.old.bytes + 21 ≤ 4096 }
    ensures added { text.new.bytes ≡ text.old.bytes ++ (decimal n ++ end ∷ []) }
    ensures short { length text.new.bytes ≤ length text.old.bytes + 21 }
{
    let mut digits = itoa::Buffer::new();
    text.push_str(digits.format(n));
    text.push(end);
}
