// The arguments of a program, one after the other.
ghost use Rattle.std.specs.Prelude.{◌≡◌, ◌<◌, ◌≤◌, length, IfOk, IfSome};
ghost use Rattle.part.specs.Arguments.{left};

use crate::words::{say, say_bytes};
use std::env::{Env, FillError};

/// The most bytes of an argument, as of a path.
pub const LONGEST_ARGUMENT: usize = 4096;

/// The argument of this number is not understood.
#[derive(Clone, Copy, Debug, PartialEq, Eq)]
pub struct Wrong(pub usize);

/// The arguments behind the program's name.
#[derive(Drop)]
pub struct Arguments<'a, E> {
    env: &'a E,
    /// The number of the argument that was read last; 0 is that of the program's name.
    pub number: usize,
}

impl<'a, E: Env> Arguments<'a, E> {
    pub fn new(env: &'a E) -> Self
        ensures { result.number ≡ 0 }
    {
        Arguments { env, number: 0 }
    }

    /// Puts the next argument at the start of `word` and answers its length, or `None` behind the last.
    pub fn next(&mut self, word: &mut [u8]) -> Result<Option<usize>, Wrong>
        ensures within { IfOk result (λ r. IfSome r (λ n. n ≤ length word.new)) }
        ensures onward { left self.new.number ≤ left self.old.number }
        ensures further { IfOk result (λ r. IfSome r (λ _. left self.new.number < left self.old.number)) }
    {
        let Some(number) = self.number.checked_add(1) else {
            return Ok(None);
        };
        match self.env.arg(number, word) {
            Ok(n) => {
                self.number = number;
                Ok(Some(n))
            }
            Err(FillError::NotPresent) => Ok(None),
            Err(FillError::TooLong) => Err(Wrong(number)),
        }
    }

    /// That the argument that was read last is not understood.
    pub fn wrong(&self) -> Wrong
        ensures { result ≡ record { 0 = self.now.number } }
    {
        Wrong(self.number)
    }
}

/// Says which argument is not understood, and what is expected. No clause can say what is printed.
pub fn tell_wrong<E: Env, P: Print>(env: &E, err: &P, program: &str, wrong: Wrong, expected: &str) {
    let mut word = [0u8; LONGEST_ARGUMENT];
    let n = env.arg(wrong.0, &mut word).unwrap_or(0);
    say(err, format_args!("{program}: the argument `"));
    say_bytes(err, &word[..n]);
    say(
        err,
        format_args!("` is not understood. Expected: {expected}\n"),
    );
}
