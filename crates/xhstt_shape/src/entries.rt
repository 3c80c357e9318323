//! The entries of a solution, kept in three lists, and what is seen of them.

ghost use Rattle.std.specs.Prelude.{◌≡◌, ◌++◌, ◌∷◌, ◌==◌, [], IfOk, MatchOption, OnErr, OnOk, length};
ghost use Rattle.std.specs.Option.{option_map};
ghost use Rattle.xhstt_shape.specs.Packed.{IsTextIn, reference_at, role_at};
ghost use Rattle.xhstt_shape.specs.Views.{seen_reference, seen_role};
ghost use Rattle.xhstt_shape.specs.Values as spec;

use crate::packed::{PackedEntry, PackedGiven, PackedName, text_of};
use crate::packing::push_entry;
use crate::packing_elements::push_entry_of;
use crate::records::{Name, RawEntry, RawGiven, Ref};
use khe_base::{NoMemory, Seq, Text};
use std::alloc::Global;
use std::marker::Model;
use xhstt_text::Element;

/// The entries of a solution. Contracts see their list.
///
/// An archive may have many solutions with many entries, each with some four short texts. So these are not kept
/// each in memory of its own, but all together: the letters of all texts one after the other, the resources of all
/// entries, and a row of 44 bytes for each entry.
#[derive(Drop)]
pub struct Entries {
    letters: Vec<u8>,
    givens: Vec<PackedGiven>,
    rows: Vec<PackedEntry>,
}

impl Model for Entries {
    ghost use Rattle.std.specs.Prelude.{List};
    ghost use Rattle.xhstt_shape.specs.Packed.{ArePacked, entries_at};
    ghost use Rattle.xhstt_shape.specs.declared.records.RawEntry.{RawEntry};

    ghost Value = { List RawEntry };

    ghost view = { λ e. entries_at e.letters.items e.givens.items e.rows.items };

    ghost invariant = { λ e. ArePacked e.letters.items e.givens.items e.rows.items };
}

impl Entries {
    /// No entries. It takes no memory.
    pub fn new(alloc: Global) -> Entries
        ensures { result ≡ [] }
    {
        Entries {
            letters: Vec::new(alloc),
            givens: Vec::new(alloc),
            rows: Vec::new(alloc),
        }
    }

    /// No entries, with room for the given number. It takes memory for these alone, and none where there are none.
    pub(crate) fn with_room(alloc: Global, count: usize) -> Result<Entries, NoMemory>
        ensures { IfOk result (λ e. e ≡ []) }
    {
        Ok(Entries {
            letters: Vec::new(alloc),
            givens: Vec::new(alloc),
            rows: Vec::with_capacity(alloc, count)?,
        })
    }

    /// How many entries there are. It takes constant time.
    pub fn len(&self) -> usize
        ensures { result ≡ length self.now }
    {
        self.rows.len()
    }

    /// Whether there are none. It takes constant time.
    pub fn is_empty(&self) -> bool
        ensures { result ≡ (length self.now == 0) }
    {
        self.len() == 0
    }

    /// The entries, to be gone through one after the other. It takes constant time.
    pub fn views(&self) -> EntryViews<'_>
        ensures { result ≡ self.now }
    {
        EntryViews {
            letters: self.letters.as_slice(),
            givens: self.givens.as_slice(),
            rows: self.rows.as_slice(),
        }
    }

    /// Adds a copy of an entry at the end, in time in proportion to its texts on average. Where memory is refused,
    /// the entries stay as they were.
    pub fn push(&mut self, entry: &RawEntry) -> Result<(), NoMemory>
        ensures ok { OnOk result (self.new ≡ self.old ++ entry.now ∷ []) }
        ensures err { OnErr result (self.new ≡ self.old) }
    {
        push_entry(&mut self.letters, &mut self.givens, &mut self.rows, entry)
    }

    /// Adds what an element says as an entry at the end, in time in proportion to the element on average. Where
    /// memory is refused, the entries stay as they were.
    pub(crate) fn push_element(
        &mut self,
        alloc: Global,
        element: &Element<'_, '_>,
    ) -> Result<(), NoMemory>
        ensures ok { OnOk result (self.new ≡ self.old ++ spec.entry element.now ∷ []) }
        ensures err { OnErr result (self.new ≡ self.old) }
    {
        push_entry_of(
            alloc,
            &mut self.letters,
            &mut self.givens,
            &mut self.rows,
            element,
        )
    }

    /// Gives back the memory that no entry needs.
    pub(crate) fn shrink(&mut self)
        ensures { self.new ≡ self.old }
    {
        self.letters.shrink_to_fit();
        self.givens.shrink_to_fit();
    }

    /// What is seen of each entry, in a list. It takes time and memory in proportion to the number of entries.
    pub fn listed(&self, alloc: Global) -> Result<Seq<EntryView<'_>>, NoMemory>
        ensures { IfOk result (λ list. list ≡ self.now) }
    {
        let mut list = Seq {
            items: Vec::with_capacity(alloc, self.len())?,
        };
        let mut rest = self.views();
        while let Some(next) = rest.next() {
            list.push(next)?;
        }
        Ok(list)
    }

    /// The entries one by one, each as an owned copy. It takes time and memory in proportion to all texts.
    pub fn unpacked(&self, alloc: Global) -> Result<Seq<RawEntry>, NoMemory>
        ensures { IfOk result (λ list. list ≡ self.now) }
    {
        let mut list = Seq {
            items: Vec::with_capacity(alloc, self.len())?,
        };
        let mut rest = self.views();
        while let Some(next) = rest.next() {
            list.push(next.unpacked(alloc)?)?;
        }
        Ok(list)
    }
}

/// The entries of a solution that are still to come, in order. Contracts see their list.
#[derive(Drop)]
pub struct EntryViews<'a> {
    letters: &'a [u8],
    givens: &'a [PackedGiven],
    rows: &'a [PackedEntry],
}

impl<'a> Model for EntryViews<'a> {
    ghost use Rattle.std.specs.Prelude.{List};
    ghost use Rattle.xhstt_shape.specs.Packed.{ArePacked, entries_at};
    ghost use Rattle.xhstt_shape.specs.declared.records.RawEntry.{RawEntry};

    ghost Value = { List RawEntry };

    ghost view = { λ v. entries_at v.letters.now v.givens.now v.rows.now };

    ghost invariant = { λ v. ArePacked v.letters.now v.givens.now v.rows.now };
}

impl<'a> EntryViews<'a> {
    /// Takes the next entry; `None` where none is left. It takes constant time.
    pub fn next(&mut self) -> Option<EntryView<'a>>
        ensures value { MatchOption result ((self.old ≡ []) × (self.new ≡ [])) (λ e. self.old ≡ e ∷ self.new) }
    {
        match self.rows {
            [] => None,
            [first, rest @ ..] => {
                let entry = EntryView {
                    letters: self.letters,
                    givens: self.givens,
                    row: *first,
                };
                self.rows = rest;
                Some(entry)
            }
        }
    }
}

/// An entry as it is kept. Contracts see the entry.
#[derive(Drop)]
pub struct EntryView<'a> {
    letters: &'a [u8],
    givens: &'a [PackedGiven],
    row: PackedEntry,
}

impl<'a> Model for EntryView<'a> {
    ghost use Rattle.std.specs.Prelude.{All};
    ghost use Rattle.xhstt_shape.specs.Packed.{IsEntryIn, IsGivenIn, entry_at};
    ghost use Rattle.xhstt_shape.specs.declared.records.RawEntry.{RawEntry};

    ghost Value = { RawEntry };

    ghost view = { λ e. entry_at e.letters.now e.givens.now e.row };

    ghost invariant = { λ e. All (IsGivenIn e.letters.now) e.givens.now × IsEntryIn e.letters.now e.givens.now e.row };
}

impl<'a> EntryView<'a> {
    /// The reference to its event. It takes constant time.
    pub fn reference(&self) -> NameView<'a>
        ensures { seen_reference result ≡ self.now.reference }
    {
        view_of(self.letters, self.row.reference)
    }

    /// Its duration, where it gives one. It takes constant time.
    pub fn duration(&self) -> Option<u32>
        ensures { result ≡ self.now.duration }
    {
        self.row.duration
    }

    /// The reference to its time, where it gives one. It takes constant time.
    pub fn time(&self) -> Option<NameView<'a>>
        ensures { option_map seen_reference result ≡ self.now.time }
    {
        match self.row.time {
            Some(time) => Some(view_of(self.letters, time)),
            None => None,
        }
    }

    /// The resources that it gives. It takes constant time.
    pub fn resources(&self) -> GivenViews<'a>
        ensures { result ≡ self.now.resources }
    {
        let first = self.row.first as usize;
        let end = first + self.row.count as usize;
        GivenViews {
            letters: self.letters,
            givens: &self.givens[first..end],
        }
    }

    /// An owned copy of the entry. It takes time and memory in proportion to its texts.
    pub fn unpacked(&self, alloc: Global) -> Result<RawEntry, NoMemory>
        ensures { IfOk result (λ e. e ≡ self.now) }
    {
        Ok(RawEntry {
            reference: reference_of(alloc, self.reference())?,
            duration: self.duration(),
            time: optional_reference(alloc, self.time())?,
            resources: self.resources().unpacked(alloc)?,
        })
    }
}

/// The resources of an entry that are still to come, in order. Contracts see their list.
#[derive(Drop)]
pub struct GivenViews<'a> {
    letters: &'a [u8],
    givens: &'a [PackedGiven],
}

impl<'a> Model for GivenViews<'a> {
    ghost use Rattle.std.specs.Prelude.{All, List};
    ghost use Rattle.xhstt_shape.specs.Packed.{IsGivenIn, givens_at};
    ghost use Rattle.xhstt_shape.specs.declared.records.RawGiven.{RawGiven};

    ghost Value = { List RawGiven };

    ghost view = { λ v. givens_at v.letters.now v.givens.now };

    ghost invariant = { λ v. All (IsGivenIn v.letters.now) v.givens.now };
}

impl<'a> GivenViews<'a> {
    /// How many are left. It takes constant time.
    pub fn len(&self) -> usize
        ensures { result ≡ length self.now }
    {
        self.givens.len()
    }

    /// Whether none is left. It takes constant time.
    pub fn is_empty(&self) -> bool
        ensures { result ≡ (length self.now == 0) }
    {
        self.len() == 0
    }

    /// Takes the next resource; `None` where none is left. It takes constant time.
    pub fn next(&mut self) -> Option<GivenView<'a>>
        ensures value { MatchOption result ((self.old ≡ []) × (self.new ≡ [])) (λ g. self.old ≡ g ∷ self.new) }
    {
        match self.givens {
            [] => None,
            [first, rest @ ..] => {
                let given = GivenView {
                    letters: self.letters,
                    given: *first,
                };
                self.givens = rest;
                Some(given)
            }
        }
    }

    /// What is seen of each of the resources that are left, in a list. It takes time and memory in proportion to
    /// their number.
    pub fn listed(self, alloc: Global) -> Result<Seq<GivenView<'a>>, NoMemory>
        ensures { IfOk result (λ list. list ≡ self.entry) }
    {
        let mut list = Seq {
            items: Vec::with_capacity(alloc, self.len())?,
        };
        let mut rest = self;
        while let Some(next) = rest.next() {
            list.push(next)?;
        }
        Ok(list)
    }

    /// The resources that are left, each as an owned copy. It takes time and memory in proportion to their texts.
    pub fn unpacked(self, alloc: Global) -> Result<Seq<RawGiven>, NoMemory>
        ensures { IfOk result (λ list. list ≡ self.entry) }
    {
        let mut list = Seq {
            items: Vec::with_capacity(alloc, self.len())?,
        };
        let mut rest = self;
        while let Some(next) = rest.next() {
            list.push(next.unpacked(alloc)?)?;
        }
        Ok(list)
    }
}

/// A resource of an entry as it is kept. Contracts see the resource.
#[derive(Drop)]
pub struct GivenView<'a> {
    letters: &'a [u8],
    given: PackedGiven,
}

impl<'a> Model for GivenView<'a> {
    ghost use Rattle.xhstt_shape.specs.Packed.{IsGivenIn, given_at};
    ghost use Rattle.xhstt_shape.specs.declared.records.RawGiven.{RawGiven};

    ghost Value = { RawGiven };

    ghost view = { λ g. given_at g.letters.now g.given };

    ghost invariant = { λ g. IsGivenIn g.letters.now g.given };
}

impl<'a> GivenView<'a> {
    /// The reference to the resource. It takes constant time.
    pub fn reference(&self) -> NameView<'a>
        ensures { seen_reference result ≡ self.now.reference }
    {
        view_of(self.letters, self.given.reference)
    }

    /// The role that it is given for, where it has one. It takes constant time.
    pub fn role(&self) -> Option<NameView<'a>>
        ensures { option_map seen_role result ≡ self.now.role }
    {
        match self.given.role {
            Some(role) => Some(view_of(self.letters, role)),
            None => None,
        }
    }

    /// An owned copy of the resource. It takes time and memory in proportion to its texts.
    pub fn unpacked(&self, alloc: Global) -> Result<RawGiven, NoMemory>
        ensures { IfOk result (λ g. g ≡ self.now) }
    {
        Ok(RawGiven {
            reference: reference_of(alloc, self.reference())?,
            role: optional_role(alloc, self.role())?,
        })
    }
}

/// A reference or a role as it is kept.
#[derive(Clone, Copy)]
pub struct NameView<'a> {
    pub text: &'a str,
    /// Its place in the archive.
    pub at: u64,
}

/// What is kept as a name.
fn view_of(letters: &[u8], name: PackedName) -> NameView<'_>
    requires { IsTextIn letters.now name.text }
    ensures reference { seen_reference result ≡ reference_at letters.now name }
    ensures role { seen_role result ≡ role_at letters.now name }
{
    NameView {
        text: text_of(letters, name.text),
        at: u64::from(name.at),
    }
}

/// An owned copy of a reference.
fn reference_of(alloc: Global, seen: NameView<'_>) -> Result<Ref, NoMemory>
    ensures { IfOk result (λ r. r ≡ seen_reference seen.entry) }
{
    Ok(Ref {
        id: Text::from_str(alloc, seen.text)?,
        at: seen.at,
    })
}

/// An owned copy of a reference, where there is one.
fn optional_reference(alloc: Global, seen: Option<NameView<'_>>) -> Result<Option<Ref>, NoMemory>
    ensures { IfOk result (λ r. r ≡ option_map seen_reference seen.entry) }
{
    match seen {
        Some(seen) => Ok(Some(reference_of(alloc, seen)?)),
        None => Ok(None),
    }
}

/// An owned copy of a role, where there is one.
fn optional_role(alloc: Global, seen: Option<NameView<'_>>) -> Result<Option<Name>, NoMemory>
    ensures { IfOk result (λ r. r ≡ option_map seen_role seen.entry) }
{
    match seen {
        Some(seen) => Ok(Some(Name {
            text: Text::from_str(alloc, seen.text)?,
            at: seen.at,
        })),
        None => Ok(None),
    }
}
