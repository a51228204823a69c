// A record's arguments, taken one after the other from its front.
use number::Operand;
use reading::Profile;

// What is left of a record. Each method takes what it answers, and answers None where that is not what stands next:
// the record then asks for nothing, and what is left is read no more.
#[derive(Clone, Copy, Debug)]
pub(crate) struct Arguments<'a> {
    left: &'a [u8],
}

impl<'a> Arguments<'a> {
    pub(crate) fn new(record: &'a [u8]) -> Self {
        Arguments { left: record }
    }

    pub(crate) fn byte(&mut self) -> Option<u8> {
        let (first, rest) = self.left.split_first()?;
        self.left = rest;
        Some(*first)
    }

    // A byte that is 0 or 1.
    pub(crate) fn flag(&mut self) -> Option<bool> {
        match self.byte()? {
            0 => Some(false),
            1 => Some(true),
            _ => None,
        }
    }

    pub(crate) fn profile(&mut self) -> Option<Profile> {
        let strict = self.flag()?;
        Some(if strict {
            Profile::Strict
        } else {
            Profile::Plain
        })
    }

    // A number of four bytes.
    pub(crate) fn word(&mut self) -> Option<u32> {
        let (four, rest) = self.left.split_first_chunk::<4>()?;
        self.left = rest;
        Some(u32::from_be_bytes(*four))
    }

    pub(crate) fn signed(&mut self) -> Option<i32> {
        Some(self.word()?.cast_signed())
    }

    // A number of four bytes that counts bytes, words or glyphs.
    pub(crate) fn size(&mut self) -> Option<usize> {
        // (`as`: std has no `From` from `u32` to `usize`)
        Some(self.word()? as usize)
    }

    // Its kind, 1 for a Fixed, and its value.
    pub(crate) fn operand(&mut self) -> Option<Operand> {
        let fixed = self.flag()?;
        let value = self.signed()?;
        Some(if fixed {
            Operand::Fixed(value)
        } else {
            Operand::Integer(value)
        })
    }

    // A size and so many bytes.
    pub(crate) fn bytes(&mut self) -> Option<&'a [u8]> {
        let n = self.size()?;
        self.take(n)
    }

    // A size and so many numbers of four bytes, which are put into the room.
    pub(crate) fn words(&mut self, room: &'a mut [u32]) -> Option<&'a [u32]> {
        let n = self.size()?;
        let (fours, _) = self.take(n.checked_mul(4)?)?.as_chunks::<4>();
        let words = room.get_mut(..n)?;
        for (word, four) in words.iter_mut().zip(fours) {
            *word = u32::from_be_bytes(*four);
        }
        Some(words)
    }

    // The record ends here.
    pub(crate) fn end(self) -> Option<()> {
        if self.left.is_empty() { Some(()) } else { None }
    }

    fn take(&mut self, n: usize) -> Option<&'a [u8]> {
        let (bytes, rest) = self.left.split_at_checked(n)?;
        self.left = rest;
        Some(bytes)
    }
}
