//! The board that workers share, and a seat at it.

ghost use Rattle.std.specs.Prelude.{◌≡◌, ℕ, ◌+◌, ◌^◌, ◌<◌, ◌≤◌, [], IfOk, MatchOption, if◌then◌else◌, nat_lt, Some, None, length};
ghost use Rattle.khe_base.specs.declared.limits.TheConstants.{JOBS};
ghost use Rattle.solve_board.specs.Counts.{IsAmong, times, once_below};

use crate::rules::{BoardRule, Both, Claim, Look, Offer, Part, Tell};
use crate::views::BoardView;
use atomic_table::Table;
use khe_base::{NoMemory, lends_to_threads};
use std::alloc::Global;

/// What a worker acts on a board with, and what it knows of it, its `BoardView`. A seat has no
/// bytes, and may go to another thread. One that is dropped keeps its board from being closed.
pub type Seat = atomic_table::Seat<(), BoardView>;

/// What the workers of a list of jobs share: the number that is claimed next, and the least job
/// that was offered. Jobs are the numbers below the board's number of jobs.
///
/// Each call but `new` and `close` acts by atomic steps on one word, through a shared reference,
/// in any thread. It takes constant time and no memory, has no error, and waits for no other call.
/// Each seat that a call takes has to be this board's, as `new` and `split` make it and every call
/// leaves it. What a call does not name stays in its seat.
pub struct Board {
    table: Table<(), BoardView, u64, BoardRule, Global>,
    jobs: u64,
    ghost jobs_are: { table.shared.key ≡ jobs },
    ghost words_are: { table.shared.table_id.words ≡ 2 },
    ghost slots_are: { table.shared.table_id.slots ≡ 0 },
}

// By hand: an exit of a caller then has one call to prove, and not a drop for each field.
impl Drop for Board {
    fn drop(self) {
        let Board {
            table: _table,
            jobs: _jobs,
        } = self;
    }
}

/// What a board had come to when it was closed.
#[derive(Clone, Copy, PartialEq, Eq)]
pub struct Closed {
    /// Each number below it was claimed once, and no other number was.
    pub next: u64,
    /// The least job that was offered, if one was.
    pub least: Option<u64>,
}

/// The job that the second word of a board stands for: none where it is the number of jobs.
fn job_at(word: u64, jobs: u64) -> Option<u64>
    ensures { result ≡ (if nat_lt word jobs then Some word else None) }
{
    if word < jobs { Some(word) } else { None }
}

impl Board {
    ghost use Rattle.solve_board.specs.Views.{claimed, offered, saw_none, saw, first_view, split_view, new_view, joined_view};
    ghost use Rattle.solve_board.specs.Seats.{view, IsSeatOf, EndsRun};

    /// A board of at most 10,000 jobs, none of them claimed, with its first seat. It fails only where memory is
    /// refused. It takes constant time and memory.
    pub fn new(alloc: Global, jobs: u64) -> Result<(Board, Seat), NoMemory>
        requires { jobs ≤ JOBS }
        ensures seat { IfOk result (λ made. IsSeatOf made.0 made.1) }
        ensures view { IfOk result (λ made. view made.1 ≡ first_view jobs) }
    {
        let (table, seat) = Table::of_words(alloc, &[0, jobs], &jobs)?;
        Ok((Board { table, jobs }, seat))
    }

    /// Splits a new seat off a seat that may split off further ones. The new seat has no claims,
    /// offers and looks, and has seen what the old one has; the old one may split off one seat
    /// fewer. It is one load of the first word.
    pub fn split(&self, seat: &mut Seat) -> Seat
        requires seat { IsSeatOf self.now seat.old }
        requires weight { 0 < (view seat.old).weight }
        requires left { 0 < (view seat.old).left }
        ensures seats { IsSeatOf self.now seat.new × IsSeatOf self.now result }
        ensures old { view seat.new ≡ split_view (view seat.old) }
        ensures new { view result ≡ new_view (view seat.old) }
    {
        self.table.shared.split_seat::<Part>(seat)
    }

    /// Joins another seat into this one, which then has the claims, offers and looks of both, in
    /// this order, and the lesser of what they had seen. No number had been claimed by both, and
    /// none twice. It is two loads of the first word: the second one only tells of the claims.
    pub fn join(&self, seat: &mut Seat, other: Seat)
        requires seats { IsSeatOf self.now seat.old × IsSeatOf self.now other }
        requires weights { (0 < (view seat.old).weight) × (0 < (view other).weight) }
        ensures seat { IsSeatOf self.now seat.new }
        ensures view { view seat.new ≡ joined_view (view seat.old) (view other) }
        ensures apart { (n : ℕ) → times n (view seat.old).claims + times n (view other).claims ≤ 1 }
    {
        self.table.shared.join_seat::<Both>(seat, other);
        self.table.shared.load::<Tell>(seat, 0);
    }

    /// Claims the next number, which no seat has claimed, and answers it. Where it is the number of
    /// jobs or more, all jobs are claimed, and the seat may claim no further number. A seat has
    /// never claimed more numbers than its next one says. It is one addition to the first word.
    pub fn claim(&self, seat: &mut Seat) -> u64
        requires seat { IsSeatOf self.now seat.old }
        requires weight { 0 < (view seat.old).weight }
        requires below { (n : ℕ) → IsAmong n (view seat.old).claims → n < (view seat.old).jobs }
        ensures seat { IsSeatOf self.now seat.new }
        ensures view { view seat.new ≡ claimed (view seat.old) result }
        ensures new { times result (view seat.old).claims ≡ 0 }
        ensures counted { length (view seat.old).claims ≤ result }
    {
        self.table.shared.fetch_add::<Claim>(seat, 0, 1)
    }

    /// Offers a job that the seat has claimed. The seat has then seen the lesser of the job and of
    /// the least offer before. It is one minimum on the second word.
    pub fn offer(&self, seat: &mut Seat, job: u64)
        requires seat { IsSeatOf self.now seat.old }
        requires weight { 0 < (view seat.old).weight }
        requires job { (job < (view seat.old).jobs) × IsAmong job (view seat.old).claims }
        ensures seat { IsSeatOf self.now seat.new }
        ensures view { (word : ℕ) × (word ≤ (view seat.old).seen) × (view seat.new ≡ offered (view seat.old) job word) }
    {
        self.table.shared.fetch_min::<Offer>(seat, 1, job);
    }

    /// The least job that was offered so far, which the seat has then seen, or `None` where none
    /// was. It is never above what the seat has offered or seen before, so once it has offered or
    /// seen a job there is one. It is one load of the second word.
    pub fn look(&self, seat: &mut Seat) -> Option<u64>
        requires seat { IsSeatOf self.now seat.old }
        requires weight { 0 < (view seat.old).weight }
        ensures seat { IsSeatOf self.now seat.new }
        ensures answer { MatchOption result (view seat.new ≡ saw_none (view seat.old)) (λ n. (view seat.new ≡ saw (view seat.old) n) × (n < (view seat.old).jobs)) }
        ensures fresh { (view seat.new).seen ≤ (view seat.old).seen }
        ensures offered { (o : ℕ) → IsAmong o (view seat.old).offers → (view seat.new).seen ≤ o }
    {
        let found = self.table.shared.load::<Look>(seat, 1);
        job_at(found, self.jobs)
    }

    /// Closes the board by the seat into which every other one was joined. The seat's claims are
    /// the numbers below `next`, each once; each number that a look answered is among the offers;
    /// and the least of these is told. Claims and offers are those of one worker of a board as
    /// plain data, after some run of steps, splits and joins. It takes constant time.
    pub fn close(self, seat: Seat) -> Closed
        requires seat { IsSeatOf self seat }
        requires whole { (view seat).left + (view seat).weight ≡ 2 ^ 32 + 1 }
        ensures run { EndsRun (view seat) result.next }
        ensures numbers { (n : ℕ) → times n (view seat).claims ≡ once_below result.next n }
        ensures looks { (n : ℕ) → IsAmong n (view seat).looks → IsAmong n (view seat).offers }
        ensures least { MatchOption result.least ((view seat).offers ≡ []) (λ m. IsAmong m (view seat).offers × ((n : ℕ) → IsAmong n (view seat).offers → m ≤ n)) }
    {
        let Board { table, jobs } = self;
        let closed = table.close_with(seat);
        let next = closed.word(0);
        let least = job_at(closed.word(1), jobs);
        closed.free();
        Closed { next, least }
    }
}

// A thread may be given such a value.
fn goes_to_threads<T: Send>(_value: &T) {}

// Workers share a board, and each has a seat: the types show it, and no program calls this.
#[allow(dead_code)]
fn boards_are_shared(board: &Board, seat: &Seat) {
    lends_to_threads(board);
    goes_to_threads(seat);
}
