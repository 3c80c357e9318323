//! The unit in which an instance's workloads are counted whole.

ghost use Rattle.std.specs.Prelude.{◌≡◌, ◌≤◌, All, None, Some, IfOk, IfErr, map, find, nat_lt};
ghost use Rattle.khe_base.specs.declared.limits.TheConstants.{UNIT};
ghost use Rattle.xhstt_resolve.specs.Units.{running_units, unit_of};

use khe_base::{least_multiple, limits};
use xhstt_shape::RawInstance;

/// The least common multiple of the durations of an instance's events, and 1 where there are none; or
/// the first running multiple above the greatest, in the order of the events. It takes for each
/// event the time of Euclid's algorithm.
pub(crate) fn unit_of(instance: &RawInstance) -> Result<u64, u128>
    requires { All (λ e. 1 ≤ e.duration) instance.now.events }
    ensures unit { IfOk result (λ u. u ≡ unit_of (map (λ e. e.duration) instance.now.events)) }
    ensures within { IfOk result (λ u. find (nat_lt UNIT) (running_units 1 (map (λ e. e.duration) instance.now.events)) ≡ None) }
    ensures above { IfErr result (λ v. find (nat_lt UNIT) (running_units 1 (map (λ e. e.duration) instance.now.events)) ≡ Some v) }
{
    let mut unit = 1u64;
    for event in instance.events.as_slice() {
        let next = least_multiple(unit, event.duration);
        if next > u128::from(limits::UNIT) {
            return Err(next);
        }
        unit = next as u64;
    }
    Ok(unit)
}
