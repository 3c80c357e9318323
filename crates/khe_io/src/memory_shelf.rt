//! A shelf of files in memory, which can be told to fail.

ghost use Rattle.std.specs.Prelude.{◌≤◌};
ghost use Rattle.std.specs.Option.{ForSome};
ghost use Rattle.khe_io.specs.Named.{IsPlaceIn};

use crate::calls::Calls;
use crate::named::{Place, copy_from, number_of};
use crate::{Failed, Named, Shelf};
use khe_base::Seq;

/// A shelf of files in memory, which gives at most the given number of bytes in a read and fails at the calls
/// that it is told to fail at. It tells everything.
#[derive(Drop)]
pub struct MemoryShelf {
    files: Seq<Named>,
    piece: u32,
    calls: Calls,
    source: Option<Place>,
    ghost some: { 1 ≤ piece },
    ghost placed: { ForSome source (IsPlaceIn files) },
}

impl MemoryShelf {
    ghost use Rattle.std.specs.Prelude.{◌≡◌, ◌≤◌, None, Some, false};
    ghost use Rattle.khe_io.specs.Calls.{none_to_come};
    ghost use Rattle.khe_io.specs.MemoryShelf.{state_of};
    ghost use Rattle.khe_io.specs.Named.{bytes_under};

    /// A shelf with these files; of two with the same name the first counts. No source is open and no fault is
    /// counted. A read gives at most `piece` bytes. `failing` has the numbers of the calls that fail: the calls
    /// of `open` and `read` are counted together from 1.
    ///
    /// Neither this nor any call of the shelf takes memory. Opening goes through the files one by one, and
    /// every call goes through the numbers of `failing`.
    pub fn new(files: Seq<Named>, piece: u32, failing: Seq<u64>) -> MemoryShelf
        requires { 1 ≤ piece }
        ensures holdings { ⟦<MemoryShelf as Shelf>⟧.holdings result ≡ Some (bytes_under files) }
        ensures closed { ⟦<MemoryShelf as Shelf>⟧.is_open result ≡ false }
        ensures faults { ⟦<MemoryShelf as Shelf>⟧.faults result ≡ 0 }
        ensures sound { ⟦<MemoryShelf as Shelf>⟧.is_sound result ≡ none_to_come failing 0 }
        ensures state { state_of result ≡ record { files = files; piece = piece; failing = failing; made = 0; faults = 0; left = None } }
    {
        MemoryShelf {
            files,
            piece,
            calls: Calls::new(failing),
            source: None,
        }
    }
}

impl Shelf for MemoryShelf {
    ghost use Rattle.std.specs.Prelude.{◌≡◌, ◌<◌, ◌≤◌, ◌↔◌, Some, is_err, is_ok, is_some, length, refl, take, IsTrue, IsOk, IsErr, IfOk, OnOk, OnErr};
    ghost use Rattle.std.specs.Option.{option_map};
    ghost use Rattle.khe_io.specs.Calls.{none_to_come};
    ghost use Rattle.khe_io.specs.Faults.{Rose};
    ghost use Rattle.khe_io.specs.Named.{bytes_under, bytes_from};
    ghost use Rattle.khe_io.specs.MemoryShelf.{after_open, after_read, fails_to_open, filled, given, is_listed, open_source_tells, state_of};
    ghost use Rattle.khe_io.specs.Shelf.{IsMissing, Opened, Gave, EndsWhereNoneIsLeft};

    ghost holdings = { λ s. Some (bytes_under s.files) };

    ghost is_open = { λ s. is_some s.source };

    ghost left = { λ s. option_map (bytes_from s.files) s.source };

    ghost faults = { λ s. s.calls.faults };

    ghost is_sound = { λ s. none_to_come s.calls.failing s.calls.made };

    /// It fails where its call is listed and where nothing stands under the name. The shelf is then as
    /// its definition says: one call more, the source of the name open from its first byte or none.
    fn open(&mut self, name: &str) -> Result<(), Failed>
        ensures fails { is_err result ≡ fails_to_open (state_of self.old) name.now }
        ensures after { state_of self.new ≡ after_open (state_of self.old) name.now }
        ensures failed { OnErr result (Rose self.old.calls.faults self.new.calls.faults) }
        ensures missing { IsTrue (none_to_come self.old.calls.failing self.old.calls.made) → (IsErr result ↔ IsMissing (Some (bytes_under self.old.files)) name.now) }
        ensures counted { self.old.calls.faults ≤ self.new.calls.faults }
        ensures stays_sound { IsTrue (none_to_come self.old.calls.failing self.old.calls.made) → IsTrue (none_to_come self.new.calls.failing self.new.calls.made) }
    {
        self.source = None;
        self.calls.make()?;
        let Some(file) = number_of(self.files.as_slice(), name) else {
            return Err(self.calls.fault());
        };
        self.source = Some(Place { file, from: 0 });
        Ok(())
    }

    /// It fails exactly where its call is listed, and then the buffer is as it was. Else it gives as
    /// many bytes as are left, as the buffer takes and as a read gives at most.
    fn read(&mut self, buf: &mut [u8]) -> Result<usize, Failed>
        requires buffer { 0 < length buf.old }
        requires open { IsTrue (is_some self.old.source) }
        ensures fails { is_err result ≡ is_listed (state_of self.old) }
        ensures count { IfOk result (λ n. n ≡ given (state_of self.old) (length buf.old)) }
        ensures filled { OnOk result (buf.new ≡ filled (state_of self.old) buf.old) }
        ensures untouched { OnErr result (buf.new ≡ buf.old) }
        ensures after { state_of self.new ≡ after_read (state_of self.old) (length buf.old) }
        ensures failed { OnErr result (Rose self.old.calls.faults self.new.calls.faults) }
        ensures never_failed { IsTrue (none_to_come self.old.calls.failing self.old.calls.made) → IsOk result }
        ensures counted { self.old.calls.faults ≤ self.new.calls.faults }
        ensures stays_sound { IsTrue (none_to_come self.old.calls.failing self.old.calls.made) → IsTrue (none_to_come self.new.calls.failing self.new.calls.made) }
    {
        self.calls.make()?;
        let place = self.source.unwrap();
        let next = copy_from(self.files.as_slice(), place, self.piece as usize, buf);
        self.source = Some(next);
        Ok(next.from - place.from)
    }

    ghost sound_tells_holdings = { λ s sound. refl };

    ghost sound_tells_left = { λ s sound is_open. open_source_tells s.files s.source is_open };
}
