//! Laws on archives that are the same, each the contract of a function that does nothing: no program calls these.
#![allow(dead_code)]

ghost use Rattle.same_archives.specs.Alike.{AreCompletedAlike, AreResolvedAlike, AreWrittenAlike, KeepInstances};

// They resolve to the same instances, or are refused for the same kind of fault or the same limit.
fn same_archives_resolve_alike()
    ensures alike { AreResolvedAlike }
    ensures instances { KeepInstances }
{}

// Their solutions with the same number say the same timetable, or are invalid for the same cause.
fn same_archives_complete_alike()
    ensures { AreCompletedAlike }
{}

// They are written as the same bytes.
fn same_archives_are_written_alike()
    ensures { AreWrittenAlike }
{}
