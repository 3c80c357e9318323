//! The first of several places in a text.

ghost use Rattle.std.specs.Prelude.{◌≡◌, [], ◌∷◌};
ghost use Rattle.std.specs.Option.{option_map};
ghost use Rattle.xhstt_references.specs.Faults.{IsTold};
ghost use Rattle.xhstt_references.specs.First.{noted, first_of};
ghost use Rattle.xhstt_references.specs.References as spec;

use crate::faults::ReferenceFault;
use crate::names::Names;
use khe_base::Seq;
use xhstt_shape::Ref;

/// The first of the places that were noted, if there is one. It stands for the whole list of them.
#[derive(Clone, Copy)]
pub(crate) struct First {
    pub(crate) at: Option<u64>,
}

impl First {
    /// No place yet.
    pub(crate) fn new() -> First
        ensures { result.at ≡ None }
    {
        First { at: None }
    }

    /// Notes a place.
    pub(crate) fn note(&mut self, at: u64)
        ensures { self.new.at ≡ noted self.old.at at }
    {
        self.at = match self.at {
            Some(first) => Some(first.min(at)),
            None => Some(at),
        };
    }

    /// Notes the place of a reference that is not among the names, in the time of a hash.
    pub(crate) fn note_unknown(&mut self, names: &Names, reference: &Ref)
        ensures { self.new.at ≡ first_of self.old.at (spec.unknown names.now (reference.now ∷ [])) }
    {
        if names.number(&reference.id).is_none() {
            self.note(reference.at);
        }
    }

    /// Notes the place of a reference that may be missing and is not among the names.
    #[tactic(auto, using(crate::proofs::FirstLemmas::first_of_nil))]
    pub(crate) fn note_unknown_one(&mut self, names: &Names, reference: &Option<Ref>)
        ensures { self.new.at ≡ first_of self.old.at (spec.unknown_one names.now reference.now) }
    {
        if let Some(reference) = reference {
            self.note_unknown(names, reference);
        }
    }

    /// Notes the places of the references that are not among the names.
    pub(crate) fn note_unknown_each(&mut self, names: &Names, references: &Seq<Ref>)
        ensures { self.new.at ≡ first_of self.old.at (spec.unknown names.now references.now) }
    {
        for reference in references.as_slice() {
            self.note_unknown(names, reference);
        }
    }

    /// The first place as a fault of a kind.
    pub(crate) fn fault(self, kind: u32) -> Result<(), ReferenceFault>
        ensures { IsTold result (option_map (λ at. ReferenceFault.Bad kind at) self.at) }
    {
        match self.at {
            Some(at) => Err(ReferenceFault::Bad { kind, at }),
            None => Ok(()),
        }
    }
}
