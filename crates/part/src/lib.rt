// What the programs `flatten` and `why` share: cutting a font part, what they take in, and the sentences that both say.
//
// Each public function answers every input. None has a `requires` but `with_source`, whose closure has to take every source.
#![tactic(auto)]

mod arguments;
mod cut;
mod input;
#[cfg(test)]
mod tests;
mod words;

pub use crate::arguments::{Arguments, LONGEST_ARGUMENT, Wrong, tell_wrong};
pub use crate::cut::{NoPart, Parts, cut_part};
pub use crate::input::{Answer, Source, answer_source, read_full, with_source, zeros};
pub use crate::words::{
    Flawed, GLOBALS, LOCALS, say, say_bytes, say_no_part, say_short, tell_failed,
};
