//! Marks inside marks. Each function's contract is an example: it is proved, and nothing calls it.
#![allow(dead_code)]
#![tactic(auto, unfolding(khe_engine::specs::States::changes, khe_engine::specs::States::edited, khe_solution::specs::Changing::changes, khe_solution::specs::Editing::edited, khe_told::specs::Watchers::watcher_count))]

ghost use Rattle.std.specs.Prelude.{◌≡◌, [], ◌∷◌};
ghost use Rattle.khe_engine.specs.States.{changes, edited};
ghost use Rattle.khe_engine.specs.Worlds.{around, closed, fresh, from_mark, grown, kept, last_cost, last_saved, trails_cost};
ghost use Rattle.khe_told.specs.declared.changes.Change.TheVariants as change;
ghost use Rattle.khe_told.specs.declared.edits.Edit.TheVariants as edit;
ghost use Rattle.worked_examples.specs.School.{meet, resource, school, task, time};
ghost use Rattle.worked_examples.specs.Worlds.{first, inner, last, outer, second};

// A mark is opened, a meet assigned, a mark opened inside it, a task given and a group made: each edit joins the trail
// of the innermost mark, and one of groups has no changes.
fn a_mark_is_opened_inside_another()
    ensures assign { edited first (edit.Assign (meet 0) (time 0)) ≡ second }
    ensures one { grown (changes first (edit.Assign (meet 0) (time 0))) (fresh first ∷ []) ≡ outer ∷ [] }
    ensures give { edited (edited second (edit.Give (task 0) (resource 0))) edit.MakeGroup ≡ last }
    ensures two { grown [] (grown (changes second (edit.Give (task 0) (resource 0))) (fresh second ∷ outer ∷ [])) ≡ inner ∷ outer ∷ [] }
    ensures none { grown (changes first (edit.Assign (meet 0) (time 0))) [] ≡ [] }
{}

// An undo leads to the innermost mark, whose groups come back with its meets; to the second mark as well, and to the
// first past it.
fn an_undo_leads_to_a_mark()
    ensures undo { last_saved last (inner ∷ outer ∷ []) ≡ second }
    ensures second { last_saved last (from_mark 2 (inner ∷ outer ∷ [])) ≡ second }
    ensures first { last_saved last (from_mark 1 (inner ∷ outer ∷ [])) ≡ first }
    ensures around { fresh first ∷ around (from_mark 1 (inner ∷ outer ∷ [])) ≡ fresh first ∷ [] }
    ensures none { last_saved last [] ≡ last }
{}

// Where the inner mark is closed, its changes and records count for the outer one, and an undo leads to that.
fn an_end_hands_its_changes_on()
    ensures closed { closed (inner ∷ outer ∷ []) ≡ record { state = first; trail = change.Place (meet 0) (time 0) ∷ change.Give (task 0) (resource 0) ∷ []; records = 3 } ∷ [] }
    ensures undo { last_saved last (closed (inner ∷ outer ∷ [])) ≡ first }
    ensures kept { kept (closed (inner ∷ outer ∷ [])) ≡ kept (inner ∷ outer ∷ []) }
    ensures last { closed (outer ∷ []) ≡ [] }
{}

// What an undo may take: the watchers of the trail, each change in the state in which it was made. The start is watched
// by the monitors on the event's time and place; the resource of a meet with three times by these and three clashes.
fn an_undo_takes_the_steps_of_its_trail()
    ensures outer { last_cost school (outer ∷ []) ≡ 2 }
    ensures inner { last_cost school (inner ∷ outer ∷ []) ≡ 5 }
    ensures both { trails_cost school 2 (inner ∷ outer ∷ []) ≡ 7 }
{}
