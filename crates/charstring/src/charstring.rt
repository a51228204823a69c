// Running a charstring: one recursive function over slices, which goes from call to call.
ghost use Rattle.std.specs.Prelude.{◌≡◌, ◌≤◌, length};
ghost use Rattle.reading.specs.Lists.{chosen};
ghost use Rattle.charstring.specs.Lent.{SameLent};
ghost use Rattle.charstring.specs.Run.{chosen_count, Sound, RunsTo};

use crate::argstack::unpack;
use crate::flattener::Flattener;
use crate::look::Limits;
use crate::marks::mark;
use crate::notes::code_of;
use crate::store::size_of;
use crate::stretch::{Ending, Stop};
use crate::subroutines::aim;
use reading::{Refusal, Which};

impl Flattener<'_> {
    // Runs a charstring, and the entries that it calls, from the state, and marks the entries. Where the run is
    // refused, each call that is open is noted on the way out of it, behind the operands of the stack: its
    // list, its entry and its place, where there is room for all three. So a run that is accepted notes nothing.
    pub(crate) fn run(&mut self, cs: &[u8], levels: u32) -> Result<Ending, Refusal>
        requires sound { Sound self.old.by self.old.stack.now self.old.out.now self.old.marks.now self.old.state }
        requires levels_le_levels { levels ≤ self.old.by.rules.levels }
        ensures runs_to { RunsTo cs.now self.old.globals.now self.old.locals.now self.old.by self.old.state
            self.old.stack.now self.old.out.now self.old.marks.now levels (record { how = result; st = self.new.state })
            self.new.stack.now self.new.out.now self.new.marks.now }
        ensures same_lent { SameLent self.old self.new }
        ensures stack_length { length self.new.stack.now ≡ length self.old.stack.now }
        ensures out_length { length self.new.out.now ≡ length self.old.out.now }
        ensures marks_length { length self.new.marks.now ≡ length self.old.marks.now }
    {
        let mut i: usize = 0;
        // no plainer: from call to call there is nothing to count
        loop {
            match self.stretch(cs, i)? {
                Stop::Done(how) => return Ok(how),
                Stop::Call(next, which) => {
                    let top = self.state.count - 1;
                    let o = unpack(self.stack[top]);
                    let list = choose(which, self.globals, self.locals);
                    let count = choose_count(which, self.by);
                    let target = aim(list, count, o, self.by.rules, levels, self.state.tail)?;
                    mark(self.marks, which, target.entry, self.by.globals);
                    self.state.enter(size_of(o));
                    match self.run(&list[target.from..target.to], levels - 1) {
                        Ok(Ending::Back) => {
                            i = next;
                        }
                        Ok(Ending::Ended) => return Ok(Ending::Ended),
                        Err(k) => {
                            let at = self.by.rules.operands
                                + 3 * (self.by.rules.levels - levels) as usize;
                            if at + 2 < self.stack.len() {
                                self.stack[at] = code_of(which);
                                self.stack[at + 1] = u64::from(target.entry);
                                self.stack[at + 2] = (next - 1) as u64;
                            }
                            return Err(k);
                        }
                    }
                }
            }
        }
    }
}

// The list that a call names.
fn choose<'a>(which: Which, globals: &'a [u8], locals: &'a [u8]) -> &'a [u8]
    ensures { result.now ≡ chosen which globals.now locals.now }
{
    match which {
        Which::Local => locals,
        Which::Global => globals,
    }
}

fn choose_count(which: Which, by: Limits) -> u32
    ensures { result ≡ chosen_count which by }
{
    match which {
        Which::Local => by.locals,
        Which::Global => by.globals,
    }
}
