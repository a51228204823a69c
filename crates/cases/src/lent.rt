// What an operation is lent to write to: a byte or a word that was written and is not reported shows.

// What is lent is full of it.
pub(crate) const LENT: u8 = 0xA5;

// Eight of them.
pub(crate) const LENT_WORD: u64 = 0xA5A5A5A5A5A5A5A5;

// The limits of a room, of a row and of the words are the lengths of these, and no record has room for more lengths or
// numbers of glyphs than there are places. A row of 65,535 entries takes 8,192 bytes, so one may have as many
// behind it; all open calls take 189 words. (no heap: it would stand on more axioms than reading and writing)
#[derive(Drop)]
pub(crate) struct Lent {
    pub(crate) lengths: [u32; 262144],
    pub(crate) room: [u8; 1048576],
    pub(crate) globals_row: [u8; 16384],
    pub(crate) locals_row: [u8; 16384],
    pub(crate) words: [u64; 192],
}

impl Lent {
    pub(crate) fn new() -> Self {
        Lent {
            lengths: [0; 262144],
            room: [0; 1048576],
            globals_row: [0; 16384],
            locals_row: [0; 16384],
            words: [0; 192],
        }
    }
}

// So many bytes or words of a room, full of what is lent; None where it is shorter. (`fill` wants a `clone` that cannot
// fail, which `Copy` does not say)
pub(crate) fn lend<T: Copy>(room: &mut [T], size: usize, lent: T) -> Option<&mut [T]> {
    let part = room.get_mut(..size)?;
    for place in part.iter_mut() {
        *place = lent;
    }
    Some(part)
}

// As many bytes of a row as are given, and these in it; None where it is shorter.
pub(crate) fn lend_row<'a>(row: &'a mut [u8], given: &[u8]) -> Option<&'a mut [u8]> {
    let part = row.get_mut(..given.len())?;
    part.copy_from_slice(given);
    Some(part)
}
