// An INDEX that was read and has entries: the first that is absent.
ghost use Rattle.std.specs.Prelude.{◌≡◌, ◌<◌, ◌≤◌, get_or};
ghost use Rattle.index.specs.Index.{width_of};
ghost use Rattle.index.specs.Formed.{formation, formed};
ghost use Rattle.index.specs.Code.{Full, offset_of, Rising, Passed};

use crate::absence::{Absence, below};
use crate::list::Flaw;
use crate::offset::word;
use crate::offsets::Offsets;

// The offsets of an INDEX with entries: the size byte tells their size, and all of the data are there.
#[derive(Clone, Copy, Debug)]
pub(crate) struct Entries<'a> {
    pub(crate) offsets: Offsets<'a>,
    ghost full: { Full (width_of offsets.width) offsets.bytes.now offsets.count },
    ghost sized: { offsets.size ≡ get_or offsets.bytes.now (width_of offsets.width) 0 },
}

impl Entries<'_> {
    // The first entry that is absent. No offset may be below the one before it or above the last, and the first may
    // not be 0; the pass reads each of those that a quick look left.
    #[tactic(auto, using(crate::proofs::FormedLaws::pass_laws))]
    pub(crate) fn first_bad(&self) -> Result<u32, Flaw>
        ensures { formed result ≡ formation (width_of self.now.offsets.width) self.now.offsets.bytes.now }
    {
        let count = self.offsets.count;
        let mut before = self.at(0);
        if before == 0 {
            return Err(Flaw::Entry(0, Absence::ZeroOffset));
        }
        let passed = self.passed();
        before = self.at(passed);
        let last = self.at(count);
        for i in passed..count {
            let after = self.at(i + 1);
            if after < before {
                return Err(Flaw::Entry(i, below(after)));
            }
            if last < after {
                return Err(Flaw::Entry(i, Absence::PastData));
            }
            before = after;
        }
        Ok(count)
    }

    // Offset i.
    fn at(&self, i: u32) -> usize
        requires { i ≤ self.now.offsets.count }
        ensures { result ≡ offset_of (width_of self.now.offsets.width) self.now.offsets.bytes.now i }
    {
        self.offsets.at(i)
    }

    // An entry before which all are present: their offsets rise, and to no more than the last.
    #[tactic(auto, using(crate::proofs::FormedLaws::passed_laws))]
    fn passed(&self) -> u32
        requires { 0 < offset_of (width_of self.now.offsets.width) self.now.offsets.bytes.now 0 }
        ensures { Passed (width_of self.now.offsets.width) self.now.offsets.bytes.now self.now.offsets.count result }
    {
        let risen = self.rising();
        if self.at(self.offsets.count) < self.at(risen) {
            return 0;
        }
        risen
    }

    // How far offsets rise, as a quick look tells, two entries a turn. It compares the four bytes from an
    // offset's first on: those behind the offset are the next one's, and decide only where two are equal.
    // (no plainer over chunks: a turn reads four bytes from an offset's first on, whatever the offsets' size)
    fn rising(&self) -> u32
        ensures at_most { result ≤ self.now.offsets.count }
        ensures rise { Rising (width_of self.now.offsets.width) self.now.offsets.bytes.now result }
    {
        let Offsets {
            bytes,
            width,
            count,
            size,
        } = self.offsets;
        if count < 5 {
            return 0;
        }
        // three offsets follow each that is read, so its four bytes are there
        let pairs = (count - 3) / 2;
        let mut at = width.bytes() + 1;
        let mut first = word(bytes, at);
        for pair in 0..pairs {
            let second = word(bytes, at + size);
            if second < first {
                return 2 * pair;
            }
            let third = word(bytes, at + 2 * size);
            if third < second {
                return 2 * pair;
            }
            first = third;
            at += 2 * size;
        }
        2 * pairs
    }
}
