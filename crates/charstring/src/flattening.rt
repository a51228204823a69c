// Flattening: the verdict without writing, and the flat string into lent room.
ghost use Rattle.std.specs.Prelude.{◌≡◌, ◌-◌, ◌≤◌, ◌<◌, ◌++◌, length, take, drop};
ghost use Rattle.index.specs.Index.{width_of, extent};
ghost use Rattle.reading.specs.Rules.{rules_of, meant};
ghost use Rattle.reading.specs.Lists.{count_in};
ghost use Rattle.reading.specs.Reading.{stopped, tokens_by, original};
ghost use Rattle.reading.specs.Answers.{number_of, flat_of, flattened, verdict, outcome, flattening};
ghost use Rattle.charstring.specs.Words.{held_by};
ghost use Rattle.charstring.specs.Gate.{lists_flaw, flaw_told};
ghost use Rattle.charstring.specs.Marks.{Clear, run_marks};
ghost use Rattle.charstring.specs.Notes.{Notes};
ghost use Rattle.charstring.specs.Run.{Begins, Roomy, stop_as, count_of};

use crate::advance::advance_of;
use crate::flattener::Flattener;
use crate::look::Limits;
use crate::state::State;
use crate::stretch::Ending;
use index::{Width, check_list, read_index};
use reading::{Flat, FlattenError, Profile, Refusal, Rules, Stopped};

// The most operands that the rules of a profile let wait.
const OPERANDS: usize = 48;

/// Flattens a charstring with its two subroutine lists, running at most `budget` tokens, into the
/// start of `out`. A refusal changes no byte of `out`, and acceptance only those that it reports.
pub fn flatten(
    cs: &[u8],
    globals: &[u8],
    locals: &[u8],
    profile: Profile,
    budget: u32,
    out: &mut [u8],
) -> Result<Flat, FlattenError>
    ensures { record { answer = flattened result; left = out.new }
        ≡ flattening (rules_of profile) cs.now globals.now locals.now budget out.old }
{
    check_lists(globals, locals, Rules::from(profile))?;
    write(cs, globals, locals, profile, budget, out)
}

// Whether both lists are well formed.
pub(crate) fn check_lists(globals: &[u8], locals: &[u8], rules: Rules) -> Result<(), FlattenError>
    ensures { flaw_told result ≡ lists_flaw (meant rules).width globals.now locals.now }
{
    check_list(globals, rules.width).map_err(FlattenError::BadGlobals)?;
    check_list(locals, rules.width).map_err(FlattenError::BadLocals)?;
    Ok(())
}

/// Flattens as `flatten` does, without a look at the lists first: a call of an entry that a list lacks
/// is refused with 9.
pub fn write(
    cs: &[u8],
    globals: &[u8],
    locals: &[u8],
    profile: Profile,
    budget: u32,
    out: &mut [u8],
) -> Result<Flat, FlattenError>
    ensures { record { answer = flattened result; left = out.new }
        ≡ outcome (rules_of profile) out.old (original (rules_of profile) cs.now globals.now locals.now budget) }
{
    write_marking(cs, globals, locals, profile, budget, out, &mut [])
}

// The same, with marks of the entries that the run enters, as far as there is room for them. A flat string that is not held whole is run
// again, into the room.
pub(crate) fn write_marking(
    cs: &[u8],
    globals: &[u8],
    locals: &[u8],
    profile: Profile,
    budget: u32,
    out: &mut [u8],
    marks: &mut [u8],
) -> Result<Flat, FlattenError>
    requires { Clear marks.old }
    ensures out_after { record { answer = flattened result; left = out.new }
        ≡ outcome (rules_of profile) out.old (original (rules_of profile) cs.now globals.now locals.now budget) }
    ensures marks_after { marks.new ≡ run_marks (rules_of profile) cs.now globals.now locals.now budget (length marks.old) }
{
    let mut stack = [0u64; OPERANDS];
    let mut held = [0u8; 2048];
    let flat = draft_by(
        cs,
        globals,
        locals,
        Rules::from(profile),
        budget,
        &mut stack,
        &mut held,
        marks,
    )?;
    let n = flat.length;
    if out.len() < n {
        return Err(FlattenError::NoRoom {
            length: n,
            tokens: flat.tokens,
        });
    }
    if held.len() < n {
        return draft(cs, globals, locals, profile, budget, &mut out[..n]);
    }
    keep(out, n, &held);
    Ok(flat)
}

/// The verdict that `write` gives where there is room enough, without writing.
pub fn measure(
    cs: &[u8],
    globals: &[u8],
    locals: &[u8],
    profile: Profile,
    budget: u32,
) -> Result<Flat, FlattenError>
    ensures { flattened result
        ≡ verdict (rules_of profile) (original (rules_of profile) cs.now globals.now locals.now budget) }
{
    let mut held = [0u8; 1];
    draft(cs, globals, locals, profile, budget, &mut held)
}

/// The verdict that `measure` gives, and at the start of `held` as many bytes of the flat string as it
/// has room for. What else it has then is anything.
pub fn draft(
    cs: &[u8],
    globals: &[u8],
    locals: &[u8],
    profile: Profile,
    budget: u32,
    held: &mut [u8],
) -> Result<Flat, FlattenError>
    ensures result_value { flattened result
        ≡ verdict (rules_of profile) (original (rules_of profile) cs.now globals.now locals.now budget) }
    ensures begins { Begins held.new
        (flat_of (original (rules_of profile) cs.now globals.now locals.now budget)) }
{
    let mut stack = [0u64; OPERANDS];
    let mut unmarked = [0u8; 0];
    let rules = Rules::from(profile);
    draft_by(
        cs,
        globals,
        locals,
        rules,
        budget,
        &mut stack,
        held,
        &mut unmarked,
    )
}

// The same by any rules, with marks, on a stack with room for their operands. Where the run is refused, the open calls are noted behind them.
// (loose parameters here and above: docs/ name the public functions, which have them, and from here on `Flattener` holds them)
pub(crate) fn draft_by(
    cs: &[u8],
    globals: &[u8],
    locals: &[u8],
    rules: Rules,
    budget: u32,
    stack: &mut [u64],
    held: &mut [u8],
    marks: &mut [u8],
) -> Result<Flat, FlattenError>
    requires roomy { Roomy rules stack.old }
    requires clear { Clear marks.old }
    ensures result_value { flattened result ≡ verdict (meant rules) (original (meant rules) cs.now globals.now locals.now budget) }
    ensures begins { Begins held.new (flat_of (original (meant rules) cs.now globals.now locals.now budget)) }
    ensures marks_after { marks.new ≡ run_marks (meant rules) cs.now globals.now locals.now budget (length marks.old) }
    ensures notes { Notes rules (original (meant rules) cs.now globals.now locals.now budget) stack.old stack.new }
{
    let by = limits_of(rules, budget, globals, locals);
    let mut flattener = Flattener {
        globals,
        locals,
        by,
        stack,
        out: held,
        marks,
        state: State::start(),
    };
    match flattener.run(cs, rules.levels) {
        Ok(Ending::Back) => {
            if rules.finished {
                return Err(FlattenError::Refused(Stopped::Alone(Refusal::NoEndchar)));
            }
            Ok(flat_with(flattener.state))
        }
        Ok(Ending::Ended) => Ok(flat_with(flattener.state)),
        Err(k) => Err(FlattenError::Refused(stopped_by(k, flattener.state.tokens))),
    }
}

// What is told of the flat string behind a run that was accepted.
fn flat_with(st: State) -> Flat
    ensures { result ≡ record { length = st.length; tokens = st.tokens; advance = held_by st } }
{
    Flat {
        length: st.length,
        tokens: st.tokens,
        advance: advance_of(st),
    }
}

// Stores the first n bytes of held.
pub(crate) fn keep(out: &mut [u8], n: usize, held: &[u8])
    requires { (n ≤ length out.old) × (n ≤ length held.now) }
    ensures { out.new ≡ take n held.now ++ drop n out.old }
{
    out[..n].copy_from_slice(&held[..n]);
}

fn limits_of(rules: Rules, budget: u32, globals: &[u8], locals: &[u8]) -> Limits
    ensures { result ≡ record {
      rules = rules;
      budget = budget;
      globals = count_of rules globals.now;
      locals = count_of rules locals.now;
    } }
{
    let width = rules.width;
    Limits {
        rules,
        budget,
        globals: count_of(globals, width),
        locals: count_of(locals, width),
    }
}

// How many entries a list has; none where it cannot be read.
#[tactic(auto, unfolding(reading::specs::Lists::count_in))]
pub(crate) fn count_of(list: &[u8], width: Width) -> u32
    ensures { result ≡ count_in (extent (width_of width) list.now) }
{
    read_index(list, width).map_or(0, |extent| extent.entries)
}

// What a refused run tells: its tokens, of which a refusal but 3 counts the one that it refuses; with 15 and 16 nothing. (no `From`: of two values)
fn stopped_by(k: Refusal, tokens: u32) -> Stopped
    requires { tokens_by tokens (stopped (number_of k)) < 4294967296 }
    ensures { result ≡ stop_as k (tokens_by tokens (stopped (number_of k))) }
{
    match k {
        Refusal::BudgetSpent => Stopped::At(k, tokens),
        Refusal::OperandsAtMask => Stopped::Alone(k),
        Refusal::NoEndchar => Stopped::Alone(k),
        _ => Stopped::At(k, tokens + 1),
    }
}
