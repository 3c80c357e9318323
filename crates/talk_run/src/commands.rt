//! The lines of a talk: those of scripts, and two more.

ghost use Rattle.std.specs.Prelude.{◌≡◌, bytes_eq, IfOk};
ghost use Rattle.edit_script.specs.Words.{words};
ghost use Rattle.talk_run.specs.Lines.{IsFit, archive_by, are_chains, by_more, chains_by, chains_of, repair_by, talk_reading};

use edit_script::{Command, LineFault, count_words, first_word, numbers_of, read_line};
use khe_base::limits::{BUDGET, CHAIN_MOVES};

/// Of which chains a repair is made.
#[derive(Clone, Copy, PartialEq, Eq)]
pub struct Chains {
    /// The greatest number of moves of a chain, 1 to `CHAIN_MOVES`.
    pub depth: u32,
    /// How many chains may be tried, 1 to `BUDGET`.
    pub budget: u32,
    /// Where each list of defects and of moves is begun, modulo its length.
    pub diversifier: u32,
}

/// What a line of a talk asks for.
#[derive(Clone, Copy, PartialEq, Eq)]
pub enum TalkCommand {
    /// What it asks for in a script.
    Base(Command),
    /// The timetable is repaired.
    Repair(Chains),
    /// The archive with the timetable in place of the solution.
    Archive,
}

/// What a line of a talk, without its line feed, asks for: what it asks for in a script; where no command of
/// scripts has its first word, a repair by the word `repair` and three numbers, or the archive by the word `archive`
/// alone.
///
/// The errors are those of scripts, in the same order. A depth that is not from 1 to `CHAIN_MOVES` and a
/// budget that is not from 1 to `BUDGET` are no such numbers (`BadNumber`). It takes no memory, and time linear in the line.
#[tactic(auto, unfolding(crate::specs::Lines::talk_reading))]
pub fn read_talk_line(line: &[u8]) -> Result<TalkCommand, LineFault>
    ensures reading { result ≡ talk_reading line.now }
    ensures fit { IfOk result IsFit }
{
    match read_line(line) {
        Ok(command) => Ok(TalkCommand::Base(command)),
        Err(LineFault::UnknownCommand) => read_more(line),
        Err(fault) => Err(fault),
    }
}

/// What a line asks for that no command of scripts begins.
fn read_more(line: &[u8]) -> Result<TalkCommand, LineFault>
    ensures reading { result ≡ by_more (words line.now) }
    ensures fit { IfOk result IsFit }
{
    let Some((word, rest)) = first_word(line) else {
        return Err(LineFault::UnknownCommand);
    };
    if is_word(b"repair", word) {
        return read_repair(rest);
    }
    if is_word(b"archive", word) {
        return read_archive(rest);
    }
    Err(LineFault::UnknownCommand)
}

/// Whether a word is this name.
fn is_word(name: &[u8], word: &[u8]) -> bool
    ensures { result ≡ bytes_eq name.now word.now }
{
    name == word
}

/// The repair that is asked for by the words after `repair`.
fn read_repair(rest: &[u8]) -> Result<TalkCommand, LineFault>
    ensures reading { result ≡ repair_by (words rest.now) }
    ensures fit { IfOk result IsFit }
{
    if count_words(rest) != 3 {
        return Err(LineFault::BadCount);
    }
    match numbers_of(rest) {
        Some(numbers) => read_chains(chains_of(numbers)),
        None => Err(LineFault::BadNumber),
    }
}

/// The chains that three numbers ask for.
fn chains_of(numbers: [u32; 4]) -> Chains
    ensures { result ≡ chains_of numbers }
{
    let [depth, budget, diversifier, _] = numbers;
    Chains {
        depth,
        budget,
        diversifier,
    }
}

/// A repair by chains, where there are such.
fn read_chains(chains: Chains) -> Result<TalkCommand, LineFault>
    ensures reading { result ≡ chains_by chains }
    ensures fit { IfOk result IsFit }
{
    if are_within(chains) {
        Ok(TalkCommand::Repair(chains))
    } else {
        Err(LineFault::BadNumber)
    }
}

/// Whether chains have a depth and a budget that a repair may have.
fn are_within(chains: Chains) -> bool
    ensures { result ≡ are_chains chains }
{
    1 <= chains.depth
        && chains.depth <= CHAIN_MOVES
        && 1 <= chains.budget
        && chains.budget <= BUDGET
}

/// The archive, where no word stands after `archive`.
fn read_archive(rest: &[u8]) -> Result<TalkCommand, LineFault>
    ensures reading { result ≡ archive_by (words rest.now) }
    ensures fit { IfOk result IsFit }
{
    if count_words(rest) == 0 {
        Ok(TalkCommand::Archive)
    } else {
        Err(LineFault::BadCount)
    }
}
