//! The lines that speak of ties.

ghost use Rattle.std.specs.Prelude.{◌≡◌, ◌≤◌, ◌++◌, IfOk, IsErrOf, OnErr, OnOk, is_some};
ghost use Rattle.std.specs.List.{count_by};
ghost use Rattle.khe_io.specs.Faults.{Rose};
ghost use Rattle.script_run.specs.Added.{IsAdded, IsCutOff};
ghost use Rattle.tied_run.specs.Answers as spec;

use followers::{Tie, Tied, TiedRefusal};
use khe_base::{MeetId, NoMemory, Text};
use khe_io::Cut;
use khe_told::Family;
use script_run::Onward;
use std::alloc::Global;

/// The line that says why something is refused: `refused NUMBER NAME`.
pub(crate) fn tied_refused_line(alloc: Global, refusal: TiedRefusal) -> Result<Text, NoMemory>
    ensures { IfOk result (λ t. t ≡ spec.tied_refused_line refusal) }
{
    let mut line = Text::new(alloc);
    line.push_literal("refused ")?;
    line.push_number(u128::from(refusal.number()))?;
    line.push_literal(" ")?;
    line.push_literal(refusal.name())?;
    line.push_literal("\n")?;
    Ok(line)
}

/// The line of a tie: `tie FOLLOWER LEADER OFFSET`.
fn tie_line(alloc: Global, follower: usize, tie: Tie) -> Result<Text, NoMemory>
    ensures { IfOk result (λ t. t ≡ spec.line_of_tie follower tie) }
{
    let mut line = Text::new(alloc);
    line.push_literal("tie ")?;
    line.push_number(follower as u128)?;
    line.push_literal(" ")?;
    line.push_number(u128::from(tie.leader.0))?;
    line.push_literal(" ")?;
    line.push_number(u128::from(tie.offset))?;
    line.push_literal("\n")?;
    Ok(line)
}

/// The line before the ties: `ties NUMBER`.
fn count_line(alloc: Global, count: usize) -> Result<Text, NoMemory>
    ensures { IfOk result (λ t. t ≡ spec.count_line count) }
{
    let mut line = Text::new(alloc);
    line.push_literal("ties ")?;
    line.push_number(count as u128)?;
    line.push_literal("\n")?;
    Ok(line)
}

/// How many meets have a tie. It takes the time of these, and looks at a word for each 64 meet slots.
fn count_ties<F: Family>(tied: &Tied<'_, F>) -> usize
    ensures { result ≡ count_by is_some tied.now.now.ties }
{
    let mut count = 0;
    let mut next = MeetId(0);
    while let Some(meet) = tied.next_tie(next) {
        count += 1;
        next = MeetId(meet.0 + 1);
    }
    count
}

/// Adds the line of the tie of a meet, if it has one.
fn push_tie(
    alloc: Global,
    follower: usize,
    tie: Option<Tie>,
    text: &mut Text,
) -> Result<(), NoMemory>
    ensures { OnOk result (text.new ≡ text.old ++ spec.tie_line follower tie) }
{
    match tie {
        Some(tie) => text.push_text(&tie_line(alloc, follower, tie)?),
        None => Ok(()),
    }
}

/// Adds how many ties there are, and the line of each, ascending by the follower, which go on while they grow. It takes
/// the time of these, and looks at a word for each 64 meet slots.
#[tactic(auto, using(script_run::proofs::AddedLaws::push_added, script_run::proofs::AddedLaws::push_cut, script_run::proofs::AddedLaws::cut_none))]
pub(crate) fn push_ties<F: Family, G: Onward>(
    alloc: Global,
    tied: &Tied<'_, F>,
    text: &mut Text,
    onward: &mut G,
) -> Result<(), Cut>
    ensures added { OnOk result (IsAdded (G.taken onward.old) (G.taken onward.new) text.old (spec.ties_text tied.now.now.ties) text.new) }
    ensures front { OnErr result (IsCutOff (G.taken onward.old) (G.taken onward.new) text.old (spec.ties_text tied.now.now.ties)) }
    ensures fault { IsErrOf result Cut.WriteFault → Rose (G.faults onward.old) (G.faults onward.new) }
    ensures faultless { OnOk result (G.faults onward.new ≡ G.faults onward.old) }
    ensures faultless_starved { IsErrOf result Cut.NoMemory → G.faults onward.new ≡ G.faults onward.old }
    ensures counted { G.faults onward.old ≤ G.faults onward.new }
{
    push_count(alloc, tied, text)?;
    push_lines(alloc, tied, text, onward)
}

/// Adds how many ties there are.
fn push_count<F: Family>(alloc: Global, tied: &Tied<'_, F>, text: &mut Text) -> Result<(), NoMemory>
    ensures { OnOk result (text.new ≡ text.old ++ spec.count_line (count_by is_some tied.now.now.ties)) }
{
    text.push_text(&count_line(alloc, count_ties(tied))?)
}

/// Adds the lines of ties.
fn push_lines<F: Family, G: Onward>(
    alloc: Global,
    tied: &Tied<'_, F>,
    text: &mut Text,
    onward: &mut G,
) -> Result<(), Cut>
    ensures added { OnOk result (IsAdded (G.taken onward.old) (G.taken onward.new) text.old (spec.tie_lines tied.now.now.ties) text.new) }
    ensures front { OnErr result (IsCutOff (G.taken onward.old) (G.taken onward.new) text.old (spec.tie_lines tied.now.now.ties)) }
    ensures fault { IsErrOf result Cut.WriteFault → Rose (G.faults onward.old) (G.faults onward.new) }
    ensures faultless { OnOk result (G.faults onward.new ≡ G.faults onward.old) }
    ensures faultless_starved { IsErrOf result Cut.NoMemory → G.faults onward.new ≡ G.faults onward.old }
    ensures counted { G.faults onward.old ≤ G.faults onward.new }
{
    let mut next = MeetId(0);
    while let Some(meet) = tied.next_tie(next) {
        push_tie(alloc, meet.0 as usize, tied.tie(meet), text)?;
        onward.pass(alloc, text)?;
        next = MeetId(meet.0 + 1);
    }
    Ok(())
}
