//! Why an edit or a mark is refused, with the number and the name of each cause.

ghost use Rattle.std.specs.Prelude.{◌≡◌, IsTrue};
ghost use Rattle.khe_base.specs.Text.{is_ascii};
ghost use Rattle.khe_told.specs.Refusals.{row_of};

/// Why an edit or a mark is refused.
#[derive(Clone, Copy, PartialEq, Eq)]
pub enum Refusal {
    /// No live meet has this number.
    NoSuchMeet,
    /// The meet is not live, or its event has no such place.
    NoSuchTask,
    /// The instance has no time of this number.
    NoSuchTime,
    /// The instance has no resource of this number.
    NoSuchResource,
    /// The event's time is preassigned, or, for a task, the resource of its place.
    Fixed,
    /// The meet has a start, or the task a resource.
    AlreadyAssigned,
    /// The meet has no start, or the task no resource.
    NotAssigned,
    /// The meet would end after the last time.
    OffEnd,
    /// The resource is not of the type of the task's place.
    WrongType,
    /// The cut is 0, or not below the meet's duration.
    BadCut,
    /// The meets are of two events.
    OtherEvent,
    /// The second meet does not start where the first ends, and one of them has a start.
    NotAdjacent,
    /// At some place the meets' resources differ.
    TasksDiffer,
    /// Both meets or tasks are the same one, or the meet or task has already what it would be given.
    Same,
    /// The instance has no monitor of this number.
    NoSuchMonitor,
    /// There is no group of this number.
    NoSuchGroup,
    /// The monitor is attached.
    Attached,
    /// The monitor is detached.
    Detached,
    /// The monitor is a child of that group.
    IsChild,
    /// The monitor is no child of that group.
    NotChild,
    /// There are 200 groups.
    GroupsFull,
    /// The group has children.
    NotEmpty,
    /// No mark is open, or none of this number.
    NoMark,
    /// 1,000 marks are open.
    MarksFull,
}

impl Refusal {
    /// Its number, by which answers name it: from 1 to 26, and never 21 or 22.
    pub fn number(self) -> u32
        ensures { result ≡ (row_of self).0 }
    {
        self.row().0
    }

    /// Its name: that of its variant.
    pub fn name(self) -> &'static str
        ensures name { result.now ≡ (row_of self).1 }
        ensures ascii { IsTrue (is_ascii result.now) }
    {
        self.row().1
    }

    /// Its number and its name: the table of refusals.
    fn row(self) -> (u32, &'static str)
        ensures number { result.0 ≡ (row_of self).0 }
        ensures name { result.1.now ≡ (row_of self).1 }
        ensures ascii { IsTrue (is_ascii result.1.now) }
    {
        match self {
            Refusal::NoSuchMeet => (1, "NoSuchMeet"),
            Refusal::NoSuchTask => (2, "NoSuchTask"),
            Refusal::NoSuchTime => (3, "NoSuchTime"),
            Refusal::NoSuchResource => (4, "NoSuchResource"),
            Refusal::Fixed => (5, "Fixed"),
            Refusal::AlreadyAssigned => (6, "AlreadyAssigned"),
            Refusal::NotAssigned => (7, "NotAssigned"),
            Refusal::OffEnd => (8, "OffEnd"),
            Refusal::WrongType => (9, "WrongType"),
            Refusal::BadCut => (10, "BadCut"),
            Refusal::OtherEvent => (11, "OtherEvent"),
            Refusal::NotAdjacent => (12, "NotAdjacent"),
            Refusal::TasksDiffer => (13, "TasksDiffer"),
            Refusal::Same => (14, "Same"),
            Refusal::NoSuchMonitor => (15, "NoSuchMonitor"),
            Refusal::NoSuchGroup => (16, "NoSuchGroup"),
            Refusal::Attached => (17, "Attached"),
            Refusal::Detached => (18, "Detached"),
            Refusal::IsChild => (19, "IsChild"),
            Refusal::NotChild => (20, "NotChild"),
            Refusal::GroupsFull => (23, "GroupsFull"),
            Refusal::NotEmpty => (24, "NotEmpty"),
            Refusal::NoMark => (25, "NoMark"),
            Refusal::MarksFull => (26, "MarksFull"),
        }
    }
}
