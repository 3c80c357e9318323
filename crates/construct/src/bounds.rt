//! The bounds that Split Events constraints set to the meets of an event, and how many meets keep them.

ghost use Rattle.std.specs.Prelude.{◌≡◌, ◌<◌, ◌≤◌, ◌*◌, nat_le};
ghost use Rattle.construct.specs.Cuts as spec;

use khe_instance::Rule;

/// How long each meet of an event may be, and how many there may be.
#[derive(Clone, Copy, PartialEq, Eq)]
pub(crate) struct Bounds {
    pub min_duration: u32,
    pub max_duration: u32,
    pub min_amount: u32,
    pub max_amount: u32,
}

/// The bounds of a Split Events constraint.
#[tactic(auto, unfolding(crate::specs::Cuts::bounds_in))]
pub(crate) fn bounds_in(rule: &Rule) -> Option<Bounds>
    ensures { result ≡ spec.bounds_in rule.now }
{
    match *rule {
        Rule::SplitEvents {
            min_duration,
            max_duration,
            min_amount,
            max_amount,
        } => Some(Bounds {
            min_duration,
            max_duration,
            min_amount,
            max_amount,
        }),
        _ => None,
    }
}

/// Bounds that keep both.
#[tactic(auto, unfolding(crate::specs::Cuts::narrowed))]
pub(crate) fn narrowed(x: Bounds, y: Bounds) -> Bounds
    ensures { result ≡ spec.narrowed x y }
{
    Bounds {
        min_duration: x.min_duration.max(y.min_duration),
        max_duration: x.max_duration.min(y.max_duration),
        min_amount: x.min_amount.max(y.min_amount),
        max_amount: x.max_amount.min(y.max_amount),
    }
}

/// The bounds that any meets of an event with this duration keep.
#[tactic(auto, unfolding(crate::specs::Cuts::widest))]
pub(crate) fn widest(duration: u32) -> Bounds
    ensures { result ≡ spec.widest duration }
{
    Bounds {
        min_duration: 1,
        max_duration: duration,
        min_amount: 1,
        max_amount: duration,
    }
}

/// Whether `amount` meets of a length together last no longer than a duration.
fn fit_in(amount: u32, length: u32, duration: u32) -> bool
    ensures { result ≡ nat_le (amount * length) duration }
{
    u64::from(amount) * u64::from(length) <= u64::from(duration)
}

/// Whether `amount` meets of a length together last at least as long as a duration.
fn fill(amount: u32, length: u32, duration: u32) -> bool
    ensures { result ≡ nat_le duration (amount * length) }
{
    u64::from(duration) <= u64::from(amount) * u64::from(length)
}

/// Whether a duration may be cut into `amount` meets.
#[tactic(auto, unfolding(crate::specs::Cuts::allows))]
fn allows(bounds: Bounds, duration: u32, amount: u32) -> bool
    ensures { result ≡ spec.allows bounds duration amount }
{
    if amount < bounds.min_amount || bounds.max_amount < amount {
        return false;
    }
    fit_in(amount, bounds.min_duration, duration) && fill(amount, bounds.max_duration, duration)
}

/// The least number of meets that may be cut of a duration, and 1 where there is none. It takes time in
/// proportion to the duration.
#[tactic(auto, unfolding(crate::specs::Cuts::least_amount))]
pub(crate) fn least_amount(bounds: Bounds, duration: u32) -> u32
    ensures { result ≡ spec.least_amount bounds duration }
{
    for before in 0..duration {
        let amount = before + 1;
        if allows(bounds, duration, amount) {
            return amount;
        }
    }
    1
}
