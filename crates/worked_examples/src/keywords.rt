//! What a line with each keyword of a script asks for. Each function's contract is an example: it is proved, and nothing
//! calls it.
#![allow(dead_code)]
#![tactic(auto, unfolding(edit_script::specs::Forms::command_at, edit_script::specs::Forms::edit_at, edit_script::specs::Forms::form_among, edit_script::specs::Forms::form_of, edit_script::specs::Reading::reading, edit_script::specs::Words::words, khe_base::specs::Digits::number_of))]

ghost use Rattle.std.specs.Prelude.{◌≡◌, Ok, Err, codes};
ghost use Rattle.edit_script.specs.Reading.{reading};
ghost use Rattle.edit_script.specs.declared.commands.Command.TheVariants as command;
ghost use Rattle.edit_script.specs.declared.commands.LineFault.TheVariants as fault;
ghost use Rattle.edit_script.specs.declared.commands.Question.TheVariants as question;
ghost use Rattle.edit_script.specs.declared.commands.Subject.TheVariants as subject;
ghost use Rattle.khe_told.specs.declared.edits.Edit.TheVariants as edit;
ghost use Rattle.worked_examples.specs.School.{group, meet, monitor, resource, second_task, task, time};

// The ten edits of meets and tasks. A task is told by its meet and its place.
fn meets_and_tasks_are_edited()
    ensures assign { reading (codes "assign 3 2") ≡ Ok (command.Edit (edit.Assign (meet 3) (time 2))) }
    ensures unassign { reading (codes "unassign 3") ≡ Ok (command.Edit (edit.Unassign (meet 3))) }
    ensures move_ { reading (codes "move 3 2") ≡ Ok (command.Edit (edit.MoveTo (meet 3) (time 2))) }
    ensures split { reading (codes "split 3 2") ≡ Ok (command.Edit (edit.Split (meet 3) 2)) }
    ensures merge { reading (codes "merge 3 2") ≡ Ok (command.Edit (edit.Merge (meet 3) (meet 2))) }
    ensures swap { reading (codes "swap 3 2") ≡ Ok (command.Edit (edit.SwapMeets (meet 3) (meet 2))) }
    ensures give { reading (codes "give 3 0 2") ≡ Ok (command.Edit (edit.Give (task 3) (resource 2))) }
    ensures take { reading (codes "take 3 1") ≡ Ok (command.Edit (edit.Take (second_task 3))) }
    ensures regive { reading (codes "regive 3 1 2") ≡ Ok (command.Edit (edit.Regive (second_task 3) (resource 2))) }
    ensures trade { reading (codes "trade 3 1 2 0") ≡ Ok (command.Edit (edit.SwapTasks (second_task 3) (task 2))) }
{}

// The six edits of monitors and groups, and the marks.
fn monitors_and_marks_are_edited()
    ensures attach { reading (codes "attach 7") ≡ Ok (command.Edit (edit.Attach (monitor 7))) }
    ensures detach { reading (codes "detach 7") ≡ Ok (command.Edit (edit.Detach (monitor 7))) }
    ensures group { reading (codes "group") ≡ Ok (command.Edit edit.MakeGroup) }
    ensures drop { reading (codes "drop 1") ≡ Ok (command.Edit (edit.DropGroup (group 1))) }
    ensures add { reading (codes "add 1 7") ≡ Ok (command.Edit (edit.AddChild (group 1) (monitor 7))) }
    ensures remove { reading (codes "remove 1 7") ≡ Ok (command.Edit (edit.RemoveChild (group 1) (monitor 7))) }
    ensures begin { reading (codes "begin") ≡ Ok command.Begin }
    ensures end { reading (codes "end") ≡ Ok command.End }
    ensures undo { reading (codes "undo") ≡ Ok command.Undo }
    ensures undo_to { reading (codes "undoto 2") ≡ Ok (command.UndoTo 2) }
{}

// The questions; and a word that only begins as a keyword is none.
fn values_are_asked_for()
    ensures monitor { reading (codes "monitor 7") ≡ Ok (command.AskAbout subject.Monitor 7) }
    ensures monitors { reading (codes "monitors") ≡ Ok (command.Ask question.Monitors) }
    ensures group_cost { reading (codes "groupcost 1") ≡ Ok (command.AskAbout subject.GroupCost 1) }
    ensures total { reading (codes "total") ≡ Ok (command.Ask question.Total) }
    ensures deficit { reading (codes "deficit") ≡ Ok (command.Ask question.Deficit) }
    ensures show { reading (codes "show") ≡ Ok (command.Ask question.Show) }
    ensures longer { reading (codes "shows") ≡ Err fault.UnknownCommand }
    ensures shorter { reading (codes "undot 2") ≡ Err fault.UnknownCommand }
{}
