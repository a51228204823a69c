// The second pass: it runs the glyphs again, each into its place in the INDEX, where the first pass could not keep them.
// (not by `write_index`, which wants all of the data at once: there is no room for them but in `out`)
// (`as` in this file: std has no `From` between `usize` and `u32`, `u64` or `u8`; each value is proved to fit)
use crate::error::FontError;
use crate::glyphs::Glyphs;
use index_writing::plan_index;
use number::write_be;

impl Glyphs<'_> {
    ghost use Rattle.std.specs.Prelude.{◌≡◌, ◌<◌};
    ghost use Rattle.number.specs.Answer.{leaving};
    ghost use Rattle.index_writing.specs.Writing.{index_bytes};
    ghost use Rattle.font.specs.Font.{lengths_of, joined_of, font_flattened};
    ghost use Rattle.font.specs.Code.{all_of, strings, Measured, Laid, Filled, filled, Fits, Begun};
    ghost use Rattle.font.specs.Glyphs.{asked_of};

    /// Writes the INDEX of their flat strings, which have `sum` bytes together, to the start of out.
    pub(crate) fn write_all(&self, sum: usize, out: &mut [u8]) -> Result<usize, FontError>
        requires { Measured (asked_of self.now) self.now.many sum }
        ensures { leaving (font_flattened result) out.new ≡ all_of (asked_of self.now) self.now.many out.old }
    {
        let plan = plan_index(u32::from(self.many), sum as u64)?;
        if out.len() < plan.needed {
            return Err(FontError::NoRoom(plan.needed));
        }
        self.put_font(plan.size, &mut out[..plan.needed]);
        Ok(plan.needed)
    }

    // Stores the INDEX, which fills out.
    fn put_font(&self, size: usize, out: &mut [u8])
        requires { Laid (asked_of self.now) self.now.many size out.old }
        ensures { out.new
            ≡ index_bytes 2 (lengths_of (strings (asked_of self.now) 0 self.now.many)) (joined_of (strings (asked_of self.now) 0 self.now.many)) }
    {
        write_be(out, 0, 2, u32::from(self.many));
        if self.many == 0 {
            return;
        }
        out[2] = size as u8;
        self.put_glyphs(size, out);
    }

    // Stores the offsets, which count from the byte before the data, and the flat strings. (no chunks of out: both go to `out`)
    fn put_glyphs(&self, size: usize, out: &mut [u8])
        requires { Filled (asked_of self.now) self.now.many size out.old }
        ensures { out.new ≡ filled (asked_of self.now) self.now.many size out.old }
    {
        // (no public function of index has a `requires`, as where the data start needs one)
        let base = 2 + (usize::from(self.many) + 1) * size;
        let mut offset: u32 = 1;
        let mut at: usize = 3;
        for i in 0..self.many {
            write_be(out, at, size, offset);
            offset += self.put_run(i, base + offset as usize, out);
            at += size;
        }
        write_be(out, at, size, offset);
    }

    // Runs the glyph at place i again and stores its flat string from `to` on; how many bytes it has. What stands behind them is
    // stored later.
    fn put_run(&self, i: u16, to: usize, out: &mut [u8]) -> u32
        requires there { i < self.now.many }
        requires fits { Fits (asked_of self.now i) to out.old }
        ensures { Begun (asked_of self.now i) to out.old out.new result }
    {
        self.run(i, &mut out[to..]).unwrap_or(0) as u32
    }
}
