//! The page while it is written: a text that remembers whether memory was refused to it.

ghost use Rattle.std.specs.Prelude.{IsTrue};
ghost use Rattle.khe_base.specs.Text.{is_ascii};

use crate::costs::push_spent;
use crate::marking::{push_between, push_counted, push_invalid, push_totals};
use khe_base::{NoMemory, Text, Totals};
use std::alloc::Global;

/// The page in the making: a text that takes pieces until memory is refused, and remembers that it was.
///
/// A writer of a page adds piece after piece and asks once in the end, by `into_text`. After the first refusal nothing
/// more is added: loops run on to their ends and write nothing, which takes at most the time of the whole page.
#[derive(Drop)]
pub(crate) struct Draft {
    /// What was added so far. Where memory was refused, nobody reads it.
    text: Text,
    /// Whether memory was there for all of it.
    kept: Result<(), NoMemory>,
}

impl Draft {
    /// A page with nothing on it. It takes no memory.
    pub(crate) fn new(alloc: Global) -> Draft {
        Draft {
            text: Text::new(alloc),
            kept: Ok(()),
        }
    }

    /// Remembers that memory was refused to something that the page needs.
    pub(crate) fn refuse(&mut self) {
        self.kept = Err(NoMemory);
    }

    /// The text of the page, or that memory was refused to it.
    pub(crate) fn into_text(self) -> Result<Text, NoMemory> {
        self.kept.and(Ok(self.text))
    }

    /// Adds markup.
    pub(crate) fn push_literal(&mut self, markup: &str)
        requires { IsTrue (is_ascii markup.now) }
    {
        if self.kept.is_ok() {
            self.kept = self.text.push_literal(markup);
        }
    }

    /// Adds a piece that another draft has made.
    pub(crate) fn push_ready(&mut self, piece: &Text) {
        if self.kept.is_ok() {
            self.kept = self.text.push_text(piece);
        }
    }

    /// Adds words of this program, as they are.
    pub(crate) fn push_str(&mut self, words: &str) {
        if self.kept.is_ok() {
            self.kept = self.text.push_str(words);
        }
    }

    /// Adds a text of the archive, escaped, between two pieces of markup.
    pub(crate) fn push_between(&mut self, before: &str, text: &Text, after: &str)
        requires before { IsTrue (is_ascii before.now) }
        requires after { IsTrue (is_ascii after.now) }
    {
        if self.kept.is_ok() {
            self.kept = push_between(&mut self.text, before, text, after);
        }
    }

    /// Adds a name or another text of the archive between two pieces of markup, escaped, and isolated, so that a text
    /// which is written from right to left does not reorder the words around it.
    pub(crate) fn push_named(&mut self, before: &str, text: &Text, after: &str)
        requires before { IsTrue (is_ascii before.now) }
        requires after { IsTrue (is_ascii after.now) }
    {
        self.push_literal(before);
        self.push_between("<bdi>", text, "</bdi>");
        self.push_literal(after);
    }

    /// Adds a number in decimal digits between two pieces of markup.
    pub(crate) fn push_counted(&mut self, before: &str, number: u128, after: &str)
        requires before { IsTrue (is_ascii before.now) }
        requires after { IsTrue (is_ascii after.now) }
    {
        if self.kept.is_ok() {
            self.kept = push_counted(&mut self.text, before, number, after);
        }
    }

    /// Adds a place of the page: the solution with a number, and in it what a letter and a number name.
    pub(crate) fn push_place(
        &mut self,
        before: &str,
        solution: u32,
        letter: &str,
        number: u32,
        after: &str,
    )
        requires before { IsTrue (is_ascii before.now) }
        requires letter { IsTrue (is_ascii letter.now) }
        requires after { IsTrue (is_ascii after.now) }
    {
        self.push_counted(before, u128::from(solution), letter);
        self.push_counted("", u128::from(number), after);
    }

    /// Adds totals, the hard cost first.
    pub(crate) fn push_totals(&mut self, totals: Totals) {
        if self.kept.is_ok() {
            self.kept = push_totals(&mut self.text, totals);
        }
    }

    /// Adds why and at which entry a solution is invalid.
    pub(crate) fn push_invalid(&mut self, cause: u32, entry: u32) {
        if self.kept.is_ok() {
            self.kept = push_invalid(&mut self.text, cause, entry);
        }
    }

    /// Adds the end of a constraint's row: how many monitors deviate, and what they cost together.
    pub(crate) fn push_spent(&mut self, count: usize, cost: u128) {
        if self.kept.is_ok() {
            self.kept = push_spent(&mut self.text, count, cost);
        }
    }
}
