//! A script that several crates of tests play.

/// A script on the first solution of the archive of two events, with a mark in a mark.
pub const NESTED_SCRIPT: &str = "\
begin
assign 0 0
total
begin
give 0 0 0
group
add 0 1
groupcost 0
total
undo
groupcost 0
total
undo
total
end
undo
total
end
undo
";

/// What it answers: each undo goes back to its own mark.
pub const NESTED_TEXT: &str = "\
ok
ok
total hard 6 soft 0
ok
ok
ok 0
ok
group 0 hard 2 soft 0
total hard 3 soft 0
ok
refused 16 NoSuchGroup
total hard 6 soft 0
ok
total hard 6 soft 0
ok
ok
total hard 12 soft 0
ok
refused 25 NoMark
";
