//! Ids, names and numbers as they stand in a line.

ghost use Rattle.std.specs.Prelude.{◌≡◌, ◌++◌, OnOk, IsTrue, codes};
ghost use Rattle.std.specs.Fmt.{decimal};
ghost use Rattle.std.specs.List.{list_all};
ghost use Rattle.khe_base.specs.Text.{is_ascii};
ghost use Rattle.evaluation_report.specs.Words.{quoted, kind_name, stays};
ghost use Rattle.xhstt_text.specs.Escape.{escaped};

use khe_base::{NoMemory, Text};
use khe_instance::Kind;
use std::alloc::Global;
use xhstt_text::escape;

/// Adds an Id in quotes, escaped. It takes time linear in the Id, and no further memory where the Id is plain.
pub(crate) fn push_quoted(alloc: Global, line: &mut Text, id: &Text) -> Result<(), NoMemory>
    ensures { OnOk result (line.new ≡ line.old ++ quoted id.now) }
{
    push_id(alloc, line, "\"", id, "\"")
}

/// Adds an Id, escaped, between two texts that bring the quotes along, as `event "` and `"`: a line has fewer pieces
/// so. It takes time linear in what is added, and no further memory where the Id is plain.
pub(crate) fn push_id(
    alloc: Global,
    line: &mut Text,
    before: &str,
    id: &Text,
    after: &str,
) -> Result<(), NoMemory>
    requires before { IsTrue (is_ascii before.now) }
    requires after { IsTrue (is_ascii after.now) }
    ensures { OnOk result (line.new ≡ line.old ++ (before.now ++ (escaped id.now ++ after.now))) }
{
    line.push_literal(before)?;
    push_escaped(alloc, line, id)?;
    line.push_literal(after)
}

/// Adds a number in decimal digits. Most numbers of a report have one digit, which takes no division.
pub(crate) fn push_count(line: &mut Text, number: u128) -> Result<(), NoMemory>
    ensures { OnOk result (line.new ≡ line.old ++ decimal number) }
{
    if number < 10 {
        return line.push(char::from(b'0' + number as u8));
    }
    line.push_number(number)
}

/// Adds an Id, escaped.
fn push_escaped(alloc: Global, line: &mut Text, id: &Text) -> Result<(), NoMemory>
    ensures { OnOk result (line.new ≡ line.old ++ escaped id.now) }
{
    if is_plain(id) {
        return line.push_text(id);
    }
    let escaped = escape(alloc, id)?;
    line.push_text(&escaped)
}

/// Whether an Id is plain: it is written as it is, with no reference. A character that is written as one is one byte,
/// so bytes are looked at, and no characters.
#[tactic(auto, using(crate::proofs::PlainIds::written_as_it_is))]
fn is_plain(id: &Text) -> bool
    ensures { IsTrue result → escaped id.now ≡ id.now }
{
    stay(id.as_bytes())
}

/// Whether no byte is a character that is written as a reference.
fn stay(bytes: &[u8]) -> bool
    ensures { result ≡ list_all stays bytes.now }
{
    bytes.iter().all(|byte| stays(*byte))
}

/// Whether a byte is no character that is written as a reference.
fn stays(byte: u8) -> bool
    ensures { result ≡ stays byte }
{
    !matches!(byte, b'&' | b'<' | b'>' | b'"' | b'\t' | b'\n' | b'\r')
}

/// The name of a kind between two spaces, and the quote that opens the Id of its constraint.
pub(crate) fn kind_between(kind: Kind) -> &'static str
    ensures name { result.now ≡ codes " " ++ (kind_name kind ++ codes " \"") }
    ensures ascii { IsTrue (is_ascii result.now) }
{
    match kind {
        Kind::AssignTime => " AssignTime \"",
        Kind::AssignResource => " AssignResource \"",
        Kind::SplitEvents => " SplitEvents \"",
        Kind::DistributeSplitEvents => " DistributeSplitEvents \"",
        Kind::PreferTimes => " PreferTimes \"",
        Kind::PreferResources => " PreferResources \"",
        Kind::AvoidSplitAssignments => " AvoidSplitAssignments \"",
        Kind::SpreadEvents => " SpreadEvents \"",
        Kind::LinkEvents => " LinkEvents \"",
        Kind::OrderEvents => " OrderEvents \"",
        Kind::AvoidClashes => " AvoidClashes \"",
        Kind::AvoidUnavailableTimes => " AvoidUnavailableTimes \"",
        Kind::LimitIdleTimes => " LimitIdleTimes \"",
        Kind::ClusterBusyTimes => " ClusterBusyTimes \"",
        Kind::LimitBusyTimes => " LimitBusyTimes \"",
        Kind::LimitWorkload => " LimitWorkload \"",
    }
}
