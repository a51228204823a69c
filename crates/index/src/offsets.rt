// The offsets of an INDEX that was looked at once. (`as` in this file: std has no `From` between `u32` and `usize`)
ghost use Rattle.std.specs.Prelude.{◌≡◌, ◌<◌, ◌≤◌};
ghost use Rattle.index.specs.Index.{width_of, data_start, offset, placed};
ghost use Rattle.index.specs.Code.{HasOffsets, place_to};

use crate::absence::{Absence, below};
use crate::entry::Place;
use crate::offset::{mask_of, word};
use crate::width::Width;

// The offsets of an INDEX with `count` entries, of `size` bytes each: all are there.
#[derive(Clone, Copy, Debug)]
pub(crate) struct Offsets<'a> {
    pub(crate) bytes: &'a [u8],
    pub(crate) width: Width,
    pub(crate) count: u32,
    pub(crate) size: usize,
    ghost has: { HasOffsets (width_of width) bytes.now count size },
}

impl Offsets<'_> {
    // Offset i, by one rule for each size. Its bytes are the low ones of the four that end where it ends: the count
    // and the size byte stand before the offsets, so those four are always there.
    pub(crate) fn at(&self, i: u32) -> usize
        requires { i ≤ self.now.count }
        ensures value { result ≡ offset (width_of self.now.width) self.now.bytes.now self.now.size i }
        ensures small { result < 4294967296 }
    {
        let end = self.width.bytes() + 1 + (i as usize + 1) * self.size;
        (word(self.bytes, end - 4) & mask_of(self.size)) as usize
    }

    // Entry `number` by its two offsets, of an INDEX that ends at `end`.
    #[tactic(auto, using(crate::proofs::IndexLaws::between_laws))]
    pub(crate) fn entry(&self, end: usize, number: u32) -> Result<Place, Absence>
        requires { number < self.now.count }
        ensures { placed result ≡ place_to end (width_of self.now.width) self.now.bytes.now self.now.count self.now.size number }
    {
        let start = data_start(self.width, self.count, self.size);
        let first = self.at(number);
        let second = self.at(number + 1);
        if first == 0 {
            return Err(Absence::ZeroOffset);
        }
        if second < first {
            return Err(below(second));
        }
        if end < start + (second - 1) {
            return Err(Absence::PastData);
        }
        Ok(Place {
            start: start + (first - 1),
            size: second - first,
        })
    }
}

// Where the data start: behind `count` offsets and one more.
pub(crate) fn data_start(width: Width, count: u32, size: usize) -> usize
    requires { size ≤ 4 }
    ensures { result ≡ data_start (width_of width) count size }
{
    width.bytes() + 1 + (count as usize + 1) * size
}
