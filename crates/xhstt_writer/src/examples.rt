//! What is written of small archives: the contract of each function is an example. Nothing calls
//! them, since it is the check that shows them.

ghost use Rattle.std.specs.Prelude.{◌≡◌, codes, length};
ghost use Rattle.xhstt_shape.specs.declared.constraints.RawRule.TheVariants as ruled;
ghost use Rattle.xhstt_writer.specs.Archives.{canonical};
ghost use Rattle.xhstt_writer.specs.Examples.{nothing, only_id, one_event};

// An archive without instances and solutions, and one whose Id has characters to escape.
fn empty_archives()
    ensures nothing { canonical nothing ≡ codes "<?xml version=\"1.0\" encoding=\"UTF-8\"?>\n<HighSchoolTimetableArchive/>\n" }
    ensures bytes { length (canonical nothing) ≡ 69 }
    ensures escaped { canonical (only_id (codes "a&\tb")) ≡ codes "<?xml version=\"1.0\" encoding=\"UTF-8\"?>\n<HighSchoolTimetableArchive Id=\"a&amp;&#9;b\"/>\n" }
{}

// Times, an event, a constraint and a solution: empty lists and names are left out.
fn one_instance()
    ensures { canonical (one_event ruled.AssignTime) ≡ codes "<?xml version=\"1.0\" encoding=\"UTF-8\"?>\n<HighSchoolTimetableArchive>\n<Instances>\n<Instance Id=\"I\">\n<Times>\n<Time Id=\"t0\"/>\n<Time Id=\"t1\"/>\n<Time Id=\"t2\"/>\n</Times>\n<Events>\n<Event Id=\"E\">\n<Duration>3</Duration>\n</Event>\n</Events>\n<Constraints>\n<AssignTimeConstraint Id=\"c\">\n<Required>true</Required>\n<Weight>2</Weight>\n<CostFunction>Linear</CostFunction>\n<AppliesTo>\n<Events>\n<Event Reference=\"E\"/>\n</Events>\n</AppliesTo>\n</AssignTimeConstraint>\n</Constraints>\n</Instance>\n</Instances>\n<SolutionGroups>\n<SolutionGroup Id=\"G\">\n<Solution Reference=\"I\"/>\n</SolutionGroup>\n</SolutionGroups>\n</HighSchoolTimetableArchive>\n" }
{}
