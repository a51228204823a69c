// Which glyphs are asked for: all of a font in order, or those that are numbered.
// (`as` in this file: std has no `From` of a `u32` for `usize`)

/// Which glyphs of a font are asked for.
#[derive(Clone, Copy, Debug)]
pub(crate) enum Choice<'a> {
    /// All of so many, in order.
    Every(u32),
    /// Those that have these numbers, in their order.
    These(&'a [u32]),
}

impl Choice<'_> {
    ghost use Rattle.std.specs.Prelude.{◌≡◌, ◌<◌, ◌≤◌, Some, None};
    ghost use Rattle.font.specs.Code.{choice_of};

    /// How many.
    pub(crate) fn len(self) -> usize
        ensures { result ≡ (choice_of self.entry).many }
    {
        match self {
            Choice::Every(count) => count as usize,
            Choice::These(numbers) => numbers.len(),
        }
    }

    /// The number at place k.
    pub(crate) fn number(self, k: u32) -> Option<u32>
        ensures inside { k < (choice_of self.entry).many → result ≡ Some ((choice_of self.entry).number k) }
        ensures behind { (choice_of self.entry).many ≤ k → result ≡ None }
    {
        match self {
            Choice::Every(count) => (k < count).then_some(k),
            Choice::These(numbers) => numbers.get(k as usize).copied(),
        }
    }
}
