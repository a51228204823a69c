// The input, cut into records.
use part::read_full;
use std::io::Read;

// The input ended inside a record.
#[derive(Clone, Copy, Debug)]
pub(crate) struct Broken;

// The limit of a record's N is the length of the buffer.
#[derive(Drop)]
pub(crate) struct Input<R> {
    input: R,
    buffer: [u8; 1048576],
}

impl<R: Read> Input<R> {
    pub(crate) fn new(input: R) -> Self {
        Input {
            input,
            buffer: [0; 1048576],
        }
    }

    // Reads the next record, or answers None where the input ended before it. One that is longer than the buffer is
    // passed over and counts as one of no bytes, which asks for nothing either. A read that fails counts as the end of
    // the input, an interrupted one too. (so no method of std, which would try it again)
    pub(crate) fn next_record(&mut self) -> Result<Option<&[u8]>, Broken> {
        let Input { input, buffer } = self;
        let mut head = [0; 4];
        match read_full(input, &mut head) {
            0 => return Ok(None),
            4 => {}
            _ => return Err(Broken),
        }
        // (`as`: std has no `From` from `u32` to `usize`)
        let n = u32::from_be_bytes(head) as usize;
        if buffer.len() < n {
            pass_over(input, n, buffer)?;
            return Ok(Some(&[]));
        }
        let record = &mut buffer[..n];
        if read_full(input, record) < n {
            return Err(Broken);
        }
        Ok(Some(record))
    }
}

// Reads n bytes, a buffer's at a time, and keeps none.
fn pass_over<R: Read>(input: &mut R, n: usize, buffer: &mut [u8]) -> Result<(), Broken> {
    let mut left = n;
    while 0 < left {
        let most = left.min(buffer.len());
        let got = read_full(input, &mut buffer[..most]);
        if got == 0 {
            return Err(Broken);
        }
        left -= got;
    }
    Ok(())
}
