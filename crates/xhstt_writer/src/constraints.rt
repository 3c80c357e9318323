//! Writing constraints.

ghost use Rattle.std.specs.Prelude.{◌≡◌, [], ◌∷◌, ℕ, List, true, false};
ghost use Rattle.xhstt_shape.specs.declared.words.Tag.{Tag as AnyTag};
ghost use Rattle.xhstt_writer.specs.Canonical as spec;
ghost use Rattle.xhstt_writer.specs.Trees.{Trees, none, filled};
ghost use Rattle.xhstt_writer.specs.Parts as parts;
ghost use Rattle.xhstt_writer.specs.Parts.{Part, put_part};
ghost use Rattle.xhstt_writer.specs.Output.{Aim, Writes};

use crate::lists::{Tagged, Write, list};
use crate::output::Output;
use crate::parts::{attribute, begin, end, name, number, number_if, plain, reference, role};
use khe_base::{CostFn, Seq};
use khe_instance::Kind;
use xhstt_shape::{Label, RawApplies, RawConstraint, RawPair, RawRule, RawSpread, Ref, Tag};

impl Write for RawPair {
    ghost use Rattle.xhstt_writer.specs.Canonical as spec;

    ghost body = { spec.pair };

    fn write<O: Output>(&self, out: &mut O, opened: bool, tag: Tag) {
        begin(out, opened, tag);
        reference(out, true, Tag::FirstEvent, &self.first);
        reference(out, false, Tag::SecondEvent, &self.second);
        number(out, false, Tag::MinSeparation, self.min);
        number(out, false, Tag::MaxSeparation, self.max);
        end(out, false, tag);
    }
}

impl Write for RawSpread {
    ghost use Rattle.xhstt_writer.specs.Canonical as spec;

    ghost body = { spec.spread };

    fn write<O: Output>(&self, out: &mut O, opened: bool, tag: Tag) {
        begin(out, opened, tag);
        attribute(out, Label::Reference, &self.reference.id);
        number(out, true, Tag::Minimum, self.min);
        number(out, false, Tag::Maximum, self.max);
        end(out, false, tag);
    }
}

/// Writes what a constraint applies to, into its open element.
fn put_applies<O: Output>(out: &mut O, applies: &RawApplies) -> bool
    ensures { (t : AnyTag) (rest : List ℕ) (whole : Aim)
        → O.said out.old (filled (parts.row (spec.applies_parts applies.now)) true t rest) whole
        → O.said out.new (filled none result t rest) whole }
{
    match applies {
        RawApplies::Events {
            event_groups,
            events,
        } => event_lists(out, true, event_groups, events),
        RawApplies::Groups { event_groups } => list(
            out,
            true,
            Tag::EventGroups,
            Tag::EventGroup,
            event_groups,
        ),
        RawApplies::Pairs { pairs } => list(out, true, Tag::EventPairs, Tag::EventPair, pairs),
        RawApplies::Resources {
            resource_groups,
            resources,
        } => resource_lists(out, true, resource_groups, resources),
    }
}

/// Writes a list of time groups and one of times.
fn time_lists<O: Output>(out: &mut O, opened: bool, groups: &Seq<Ref>, times: &Seq<Ref>) -> bool
    ensures { (more : Trees) (t : AnyTag) (rest : List ℕ) (whole : Aim)
        → O.said out.old (filled (put_part (parts.references Tag.TimeGroups Tag.TimeGroup groups.now)
        (put_part (parts.references Tag.Times Tag.Time times.now) more)) opened t rest) whole
        → O.said out.new (filled more result t rest) whole }
{
    let inside = list(out, opened, Tag::TimeGroups, Tag::TimeGroup, groups);
    list(out, inside, Tag::Times, Tag::Time, times)
}

/// Writes a list of resource groups and one of resources.
fn resource_lists<O: Output>(
    out: &mut O,
    opened: bool,
    groups: &Seq<Ref>,
    resources: &Seq<Ref>,
) -> bool
    ensures { (more : Trees) (t : AnyTag) (rest : List ℕ) (whole : Aim)
        → O.said out.old (filled (put_part (parts.references Tag.ResourceGroups Tag.ResourceGroup groups.now)
        (put_part (parts.references Tag.Resources Tag.Resource resources.now) more)) opened t rest) whole
        → O.said out.new (filled more result t rest) whole }
{
    let inside = list(out, opened, Tag::ResourceGroups, Tag::ResourceGroup, groups);
    list(out, inside, Tag::Resources, Tag::Resource, resources)
}

/// Writes a list of event groups and one of events.
fn event_lists<O: Output>(out: &mut O, opened: bool, groups: &Seq<Ref>, events: &Seq<Ref>) -> bool
    ensures { (more : Trees) (t : AnyTag) (rest : List ℕ) (whole : Aim)
        → O.said out.old (filled (put_part (parts.references Tag.EventGroups Tag.EventGroup groups.now)
        (put_part (parts.references Tag.Events Tag.Event events.now) more)) opened t rest) whole
        → O.said out.new (filled more result t rest) whole }
{
    let inside = list(out, opened, Tag::EventGroups, Tag::EventGroup, groups);
    list(out, inside, Tag::Events, Tag::Event, events)
}

/// Writes the children of a constraint that its kind alone has.
fn put_rule<O: Output>(out: &mut O, rule: &RawRule) -> bool
    ensures { (t : AnyTag) (rest : List ℕ) (whole : Aim)
        → O.said out.old (filled (parts.row (spec.rule_parts rule.now)) false t rest) whole
        → O.said out.new (filled none result t rest) whole }
{
    match rule {
        RawRule::AssignTime | RawRule::LinkEvents | RawRule::OrderEvents | RawRule::AvoidClashes =>
            false,
        RawRule::AssignResource { role: given } | RawRule::AvoidSplitAssignments { role: given } =>
            {
                role(out, false, given);
                false
            }
        RawRule::SplitEvents {
            min_duration,
            max_duration,
            min_amount,
            max_amount,
        } => {
            number(out, false, Tag::MinimumDuration, *min_duration);
            number(out, false, Tag::MaximumDuration, *max_duration);
            number(out, false, Tag::MinimumAmount, *min_amount);
            number(out, false, Tag::MaximumAmount, *max_amount);
            false
        }
        RawRule::DistributeSplitEvents { duration, min, max } => {
            number(out, false, Tag::Duration, *duration);
            put_bounds(out, *min, *max);
            false
        }
        RawRule::PreferTimes {
            time_groups,
            times,
            duration,
        } => {
            let still = time_lists(out, false, time_groups, times);
            number_if(out, still, Tag::Duration, *duration)
        }
        RawRule::LimitWorkload { min, max } => {
            put_bounds(out, *min, *max);
            false
        }
        RawRule::SpreadEvents { time_groups } => list(
            out,
            false,
            Tag::TimeGroups,
            Tag::TimeGroup,
            time_groups,
        ),
        RawRule::LimitIdleTimes {
            time_groups,
            min,
            max,
        } => {
            put_bounded(out, time_groups, *min, *max);
            false
        }
        RawRule::ClusterBusyTimes {
            time_groups,
            min,
            max,
        } => {
            put_bounded(out, time_groups, *min, *max);
            false
        }
        RawRule::LimitBusyTimes {
            time_groups,
            min,
            max,
        } => {
            put_bounded(out, time_groups, *min, *max);
            false
        }
        RawRule::AvoidUnavailableTimes { time_groups, times } => {
            time_lists(out, false, time_groups, times)
        }
        RawRule::PreferResources {
            resource_groups,
            resources,
            role: given,
        } => {
            let still = resource_lists(out, false, resource_groups, resources);
            role(out, still, given);
            false
        }
    }
}

fn put_bounds<O: Output>(out: &mut O, min: u32, max: u32)
    ensures { (t : AnyTag) (rest : List ℕ) (whole : Aim)
        → O.said out.old (filled (parts.row (parts.one Tag.Minimum
        (parts.number min) ∷ (parts.one Tag.Maximum (parts.number max) ∷ []))) false t rest) whole
        → O.said out.new (filled none false t rest) whole }
{
    number(out, false, Tag::Minimum, min);
    number(out, false, Tag::Maximum, max);
}

fn put_bounded<O: Output>(out: &mut O, groups: &Seq<Ref>, min: u32, max: u32)
    ensures { (t : AnyTag) (rest : List ℕ) (whole : Aim)
        → O.said out.old (filled (parts.row (parts.references Tag.TimeGroups Tag.TimeGroup
        groups.now ∷ (parts.one Tag.Minimum (parts.number min) ∷ (parts.one Tag.Maximum (parts.number max) ∷ []))))
        false t rest) whole → O.said out.new (filled none false t rest) whole }
{
    let inside = list(out, false, Tag::TimeGroups, Tag::TimeGroup, groups);
    number(out, inside, Tag::Minimum, min);
    number(out, false, Tag::Maximum, max);
}

/// The kind of a constraint, by what it asks for.
fn kind_of(rule: &RawRule) -> Kind
    ensures { result ≡ spec.kind_of rule.now }
{
    match rule {
        RawRule::AssignTime => Kind::AssignTime,
        RawRule::AssignResource { .. } => Kind::AssignResource,
        RawRule::SplitEvents { .. } => Kind::SplitEvents,
        RawRule::DistributeSplitEvents { .. } => Kind::DistributeSplitEvents,
        RawRule::PreferTimes { .. } => Kind::PreferTimes,
        RawRule::PreferResources { .. } => Kind::PreferResources,
        RawRule::AvoidSplitAssignments { .. } => Kind::AvoidSplitAssignments,
        RawRule::SpreadEvents { .. } => Kind::SpreadEvents,
        RawRule::LinkEvents => Kind::LinkEvents,
        RawRule::OrderEvents => Kind::OrderEvents,
        RawRule::AvoidClashes => Kind::AvoidClashes,
        RawRule::AvoidUnavailableTimes { .. } => Kind::AvoidUnavailableTimes,
        RawRule::LimitIdleTimes { .. } => Kind::LimitIdleTimes,
        RawRule::ClusterBusyTimes { .. } => Kind::ClusterBusyTimes,
        RawRule::LimitBusyTimes { .. } => Kind::LimitBusyTimes,
        RawRule::LimitWorkload { .. } => Kind::LimitWorkload,
    }
}

/// The word for whether a cost is hard.
fn truth_word(required: bool) -> &'static [u8]
    ensures { result.now ≡ spec.truth_word required }
{
    if required { b"true" } else { b"false" }
}

/// The word for a cost function.
fn function_word(cost: CostFn) -> &'static [u8]
    ensures { result.now ≡ spec.function_word cost }
{
    match cost {
        CostFn::Linear => b"Linear",
        CostFn::Quadratic => b"Quadratic",
        CostFn::Step => b"Step",
    }
}

/// Writes whether the cost is hard.
fn put_required<O: Output>(out: &mut O, opened: bool, required: bool)
    ensures { Writes (O.said out.old) opened (O.said out.new) false
        (parts.one Tag.Required (parts.text (spec.truth_word required))) }
{
    plain(out, opened, Tag::Required, truth_word(required));
}

/// Writes the cost function.
fn put_function<O: Output>(out: &mut O, cost: CostFn)
    ensures { Writes (O.said out.old) false (O.said out.new) false
        (parts.one Tag.CostFunction (parts.text (spec.function_word cost))) }
{
    plain(out, false, Tag::CostFunction, function_word(cost));
}

/// Writes the element that says what a constraint applies to.
#[tactic(auto, unfolding(crate::specs::Parts::put_all))]
fn put_applied<O: Output>(out: &mut O, applies: &RawApplies)
    ensures { Writes (O.said out.old) false (O.said out.new) false
        (parts.one Tag.AppliesTo (parts.element [] (parts.row (spec.applies_parts applies.now)))) }
{
    begin(out, false, Tag::AppliesTo);
    let inside = put_applies(out, applies);
    end(out, inside, Tag::AppliesTo);
}

/// Writes the children that each constraint has, before those of its rule.
fn put_common<O: Output>(out: &mut O, constraint: &RawConstraint)
    ensures { (further : List Part) (t : AnyTag) (rest : List ℕ) (whole : Aim)
        → O.said out.old (filled (parts.row (spec.constraint_parts constraint.now further)) true t rest) whole
        → O.said out.new (filled (parts.row further) false t rest) whole }
{
    let inside = name(out, true, &constraint.name);
    put_required(out, inside, constraint.required);
    number(out, false, Tag::Weight, constraint.weight);
    put_function(out, constraint.cost);
    put_applied(out, &constraint.applies);
}

impl Write for RawConstraint {
    ghost use Rattle.xhstt_writer.specs.Canonical as spec;

    ghost body = { spec.constraint };

    fn write<O: Output>(&self, out: &mut O, opened: bool, tag: Tag) {
        begin(out, opened, tag);
        attribute(out, Label::Id, &self.id.text);
        put_common(out, self);
        let inside = put_rule(out, &self.rule);
        end(out, inside, tag);
    }
}

impl Tagged for RawConstraint {
    ghost use Rattle.xhstt_writer.specs.Canonical as spec;

    ghost own_tag = { spec.constraint_tag };

    fn tag(&self) -> Tag {
        Tag::Constraint(kind_of(&self.rule))
    }
}
