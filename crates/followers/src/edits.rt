//! Ties, and the edits of a timetable with ties and why they are refused.

ghost use Rattle.std.specs.Prelude.{◌≡◌, IsTrue};
ghost use Rattle.followers.specs.Names.{row_of};
ghost use Rattle.khe_base.specs.Text.{is_ascii};

use khe_base::MeetId;
use khe_told::{Edit, Refusal};

/// What a follower is tied to: it starts `offset` times later than its leader.
#[derive(Clone, Copy, PartialEq, Eq)]
pub struct Tie {
    pub leader: MeetId,
    pub offset: u32,
}

/// An edit of a timetable with ties.
#[derive(Clone, Copy, PartialEq, Eq)]
pub enum TiedEdit {
    /// One of the engine's edits. The followers of a meet that gets another start go with it.
    Base(Edit),
    /// Ties a meet to another at an offset.
    Tie {
        follower: MeetId,
        leader: MeetId,
        offset: u32,
    },
    /// Unties a meet, which keeps its start.
    Untie {
        follower: MeetId,
    },
}

/// Why an edit of a timetable with ties is refused.
#[derive(Clone, Copy, PartialEq, Eq)]
pub enum TiedRefusal {
    /// For a cause of the engine's table.
    Base(Refusal),
    /// The meet follows another.
    Follower,
    /// The meet has followers.
    Leader,
    /// The follower would end after its leader.
    BadOffset,
    /// The meet follows none.
    NotFollower,
}

impl TiedRefusal {
    /// Its number, by which answers name it: those of the engine's table, and 27 to 30.
    pub fn number(self) -> u32
        ensures { result ≡ (row_of self).0 }
    {
        self.row().0
    }

    /// Its name: that of its variant.
    pub fn name(self) -> &'static str
        ensures name { result.now ≡ (row_of self).1 }
        ensures ascii { IsTrue (is_ascii result.now) }
    {
        self.row().1
    }

    /// Its number and its name.
    fn row(self) -> (u32, &'static str)
        ensures number { result.0 ≡ (row_of self).0 }
        ensures name { result.1.now ≡ (row_of self).1 }
        ensures ascii { IsTrue (is_ascii result.1.now) }
    {
        match self {
            TiedRefusal::Base(refusal) => (refusal.number(), refusal.name()),
            TiedRefusal::Follower => (27, "Follower"),
            TiedRefusal::Leader => (28, "Leader"),
            TiedRefusal::BadOffset => (29, "BadOffset"),
            TiedRefusal::NotFollower => (30, "NotFollower"),
        }
    }
}

/// Why an edit of a timetable with ties was not made.
#[derive(Clone, Copy, PartialEq, Eq)]
pub enum TiedFault {
    /// The state does not allow it.
    Refused(TiedRefusal),
    /// It is allowed, but there is no memory for what it keeps.
    NoMemory,
}
