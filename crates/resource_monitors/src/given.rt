//! What the places of a meet are given before an effect and after it.

ghost use Rattle.std.specs.Prelude.{◌≡◌, ◌<◌, true, false, None, length, slice_index_or};
ghost use Rattle.khe_instance.specs.Running.{is_resource};
ghost use Rattle.khe_told.specs.Effects.{given_with};

use khe_base::ResourceId;
use khe_told::Regiven;

/// Whether a place is given this resource.
#[inline(always)]
pub(crate) fn is_of(place: Option<ResourceId>, r: ResourceId) -> bool
    ensures { result ≡ is_resource r.0 place }
{
    match place {
        None => false,
        Some(own) => own.0 == r.0,
    }
}

/// Whether two places are given the same.
#[inline(always)]
pub(crate) fn is_same(before: Option<ResourceId>, later: Option<ResourceId>) -> bool
    ensures { result ≡ true → before ≡ later }
{
    before == later
}

/// What a place would be given, where one of them may be given something else.
#[inline(always)]
pub(crate) fn given_at(
    given: &[Option<ResourceId>],
    regiven: Option<Regiven>,
    place: usize,
) -> Option<ResourceId>
    requires { place < length given.now }
    ensures { result ≡ slice_index_or (given_with given.now regiven) place None }
{
    if let Some(own) = regiven {
        if own.place as usize == place {
            return own.resource;
        }
    }
    given[place]
}
