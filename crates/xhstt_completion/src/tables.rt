//! Tables of roles, for an entry that gives many resources for an event with many places.

ghost use Rattle.std.specs.Prelude.{◌≡◌, ◌++◌, ◌∷◌, [], ℕ, List, Option, Some, None, length, map, min, nat_le, position, IfOk, OnOk, slice_get};
ghost use Rattle.std.specs.Option.{option_and_then, option_copied};
ghost use Rattle.khe_base.specs.Names.{number_of};
ghost use Rattle.khe_base.specs.Text.{characters};
ghost use Rattle.khe_instance.specs.Lookups.{is_role};
ghost use Rattle.xhstt_completion.specs.Entries.{role_of};
ghost use Rattle.xhstt_completion.specs.Tables.{Finds};

use khe_base::{NoMemory, Text};
use std::alloc::Global;
use xhstt_references::{Names, Seed};
use xhstt_shape::GivenView;

/// Up to this many resources of an entry, or places of its event, are few: each resource is then looked
/// for among all places, and each place among all resources, which takes time in proportion to both
/// together, and neither memory nor a hash. Whether a role came before is asked only for a resource
/// that has its place, so no more than once for each place, and once again.
const FEW: usize = 16;

/// Whether these resources, or these places, are few. It takes constant time.
pub(crate) fn are_few(given: usize, places: usize) -> bool
    ensures { result ≡ nat_le (min given places) FEW }
{
    given.min(places) <= FEW
}

/// The first place of each role, among roles that came one after the other.
pub(crate) struct RoleTable {
    names: Names,
    /// The first place of each name.
    firsts: Vec<usize>,
    /// The length of the longest name, in bytes: a role that is longer is none of them, and needs no
    /// hash. So no role of an event takes more time than the longest one that an entry gives.
    longest: usize,
}

// By hand: an exit of a caller then has one call to prove, and not a drop for each field.
impl Drop for RoleTable {
    fn drop(self) {
        let RoleTable {
            names: _names,
            firsts: _firsts,
            longest: _longest,
        } = self;
    }
}

impl RoleTable {
    /// The table of no roles, for some of the roles that these resources are given for. It takes time in
    /// proportion to them, and no memory.
    pub fn new(alloc: Global, given: &[GivenView<'_>]) -> RoleTable
        ensures { Finds result [] }
    {
        RoleTable {
            names: Names::new(alloc, seed_of(given)),
            firsts: Vec::new(alloc),
            longest: 0,
        }
    }

    /// Adds what stands at the next place: a role, or none. Where memory is refused, the table is of
    /// no use any more. It takes the time of a copy and of a hash of the role, on average.
    pub fn push(&mut self, role: Option<&Text>, place: usize) -> Result<(), NoMemory>
        ensures { OnOk result ((roles : List (Option (List ℕ))) → length roles ≡ place → Finds self.old roles → Finds self.new (roles ++ option_copied role.entry ∷ [])) }
    {
        match role {
            Some(role) => self.add(role, place),
            None => Ok(()),
        }
    }

    /// Adds a role that stands at the next place.
    fn add(&mut self, role: &Text, place: usize) -> Result<(), NoMemory>
        ensures { OnOk result ((roles : List (Option (List ℕ))) → length roles ≡ place → Finds self.old roles → Finds self.new (roles ++ Some role.now ∷ [])) }
    {
        self.longest = self.longest.max(role.as_bytes().len());
        if !self.names.insert(role)? {
            return Ok(());
        }
        self.firsts.push(place)?;
        Ok(())
    }

    /// The first place of a role, if it has one. It takes the time of a hash of the role on average,
    /// and constant time where the role is longer than all of the table.
    pub fn find(&self, role: &str) -> Option<usize>
        ensures { (roles : List (Option (List ℕ))) → Finds self.now roles → result ≡ position (is_role (characters role.now)) roles }
    {
        if self.longest < role.len() {
            return None;
        }
        self.first(role)
    }

    /// The first place of a role, if it has one, by a hash.
    fn first(&self, role: &str) -> Option<usize>
        ensures { result ≡ option_and_then (λ n. slice_get self.now.firsts.items n) (number_of (characters role.now) self.now.names) }
    {
        match self.names.number_spelled(role) {
            Some(number) => self.firsts.as_slice().get(number).copied(),
            None => None,
        }
    }
}

/// The number that the hashes of the roles begin with which resources are given for.
fn seed_of(given: &[GivenView<'_>]) -> u64 {
    let mut seed = Seed::new();
    for one in given {
        if let Some(role) = one.role() {
            seed.add(role.text);
        }
    }
    seed.number()
}

/// The roles for which resources are given, each at the place of the resource. It takes time and memory
/// in proportion to the resources and their roles, on average.
pub(crate) fn roles_given(alloc: Global, given: &[GivenView<'_>]) -> Result<RoleTable, NoMemory>
    ensures { IfOk result (λ table. Finds table (map role_of given.now)) }
{
    let mut table = RoleTable::new(alloc, given);
    for (number, one) in given.iter().enumerate() {
        push_given(alloc, &mut table, one, number)?;
    }
    Ok(table)
}

/// Adds the role that the resource at the next place is given for, if it is given for one.
fn push_given(
    alloc: Global,
    table: &mut RoleTable,
    one: &GivenView<'_>,
    place: usize,
) -> Result<(), NoMemory>
    ensures { OnOk result ((roles : List (Option (List ℕ))) → length roles ≡ place → Finds table.old roles → Finds table.new (roles ++ role_of one.now ∷ [])) }
{
    match one.role() {
        Some(name) => table.add(&Text::from_str(alloc, name.text)?, place),
        None => Ok(()),
    }
}
