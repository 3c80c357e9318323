//! Instances for tests, read from texts.

ghost use Rattle.std.specs.Prelude.{◌<◌, ◌^◌, IfSome, length};
ghost use Rattle.xhstt_shape.specs.WellFormed.{IsInForm};

use khe_base::NoMemory;
use std::alloc::Global;
use xhstt_resolve::{Resolved, resolve};
use xhstt_shape::Archive;
use xhstt_shape::reading::archive;
use xhstt_text::elements;

/// An archive up to its events: a week of ten times, of which five are a day, two resources of one
/// type, and an event group.
const HEAD: &str = r#"<HighSchoolTimetableArchive>
<Instances><Instance Id="I">
<Times><TimeGroups><Day Id="day"/><Week Id="all"/></TimeGroups>
<Time Id="t0"><Day Reference="day"/><Week Reference="all"/></Time><Time Id="t1"><Day Reference="day"/><Week Reference="all"/></Time>
<Time Id="t2"><Day Reference="day"/><Week Reference="all"/></Time><Time Id="t3"><Day Reference="day"/><Week Reference="all"/></Time>
<Time Id="t4"><Day Reference="day"/><Week Reference="all"/></Time><Time Id="t5"><Week Reference="all"/></Time>
<Time Id="t6"><Week Reference="all"/></Time><Time Id="t7"><Week Reference="all"/></Time>
<Time Id="t8"><Week Reference="all"/></Time><Time Id="t9"><Week Reference="all"/></Time></Times>
<Resources><ResourceTypes><ResourceType Id="X"/></ResourceTypes>
<Resource Id="r0"><ResourceType Reference="X"/></Resource><Resource Id="r1"><ResourceType Reference="X"/></Resource></Resources>
<Events><EventGroups><EventGroup Id="g"/></EventGroups>
"#;

/// The text between the events and the constraints.
const MIDDLE: &str = "</Events>\n<Constraints>";

const TAIL: &str = "</Constraints>\n</Instance></Instances>\n</HighSchoolTimetableArchive>\n";

/// The events and the constraints of an archive, as texts.
pub(crate) type Texts = (&'static str, &'static str);

/// The text of an archive of an instance with these events and constraints.
fn text_of(alloc: Global, texts: Texts) -> Result<String, NoMemory> {
    let mut text = String::new(alloc);
    let pushed = push_all(&mut text, texts);
    handed(pushed, text)
}

/// Pushes the text of an archive of an instance with these events and constraints.
fn push_all(text: &mut String, (events, rules): Texts) -> Result<(), NoMemory> {
    text.push_str(HEAD)?;
    text.push_str(events)?;
    text.push_str(MIDDLE)?;
    text.push_str(rules)?;
    text.push_str(TAIL)?;
    Ok(())
}

/// What was made, where nothing was refused.
fn handed<T: Drop>(done: Result<(), NoMemory>, made: T) -> Result<T, NoMemory> {
    done?;
    Ok(made)
}

/// The archive that a text spells, if it has no fault.
fn archive_of(alloc: Global, text: &str) -> Option<Archive>
    ensures formed { IfSome result IsInForm }
    ensures few { IfSome result (λ a. length a.instances < 2 ^ 32) }
{
    let bytes = text.as_bytes();
    if bytes.len() > 1_000_000 {
        return None;
    }
    let Ok(tree) = elements(alloc, bytes) else {
        return None;
    };
    let found = archive(alloc, &tree);
    drop(tree);
    let Ok(found) = found else {
        return None;
    };
    if found.instances.len() > 1 {
        drop(found);
        return None;
    }
    Some(found)
}

/// The instances of the archive with these events and constraints, if it has no fault.
pub(crate) fn resolved_of(alloc: Global, texts: Texts) -> Option<Resolved> {
    let text = text_of(alloc, texts).ok()?;
    let archive = archive_of(alloc, text.as_str());
    drop(text);
    let archive = archive?;
    let resolved = resolve(alloc, &archive).ok();
    drop(archive);
    resolved
}
