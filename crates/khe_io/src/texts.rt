//! Whole texts: all bytes under a name of a shelf, and all bytes of a text to a sink.

ghost use Rattle.std.specs.Prelude.{◌≡◌, ◌<◌, ◌≤◌, ◌↔◌, [], length, IsTrue, IsOk, IfOk, OnOk, OnErr, IsErrOf};
ghost use Rattle.khe_io.specs.Faults.{Rose, Took, TookFront};
ghost use Rattle.khe_io.specs.Shelf.{StandsUnder, StandsAbove, IsMissing};

use crate::{Failed, Shelf, Sink};
use khe_base::limits::PIECE_BYTES;
use khe_base::{NoMemory, Seq};
use std::alloc::{AllocError, Global};
use thiserror::Error;

/// Why a text was not taken from a shelf.
#[derive(Clone, Copy, Debug, PartialEq, Eq, Error)]
pub enum TakeFault {
    /// The shelf refused a call, and counted a fault.
    #[error("the text could not be read")]
    ReadFault,
    /// More bytes than the limit stand under the name.
    #[error("the text is too large")]
    TooLarge,
    /// Memory was refused.
    #[error("out of memory")]
    NoMemory,
}

impl From<Failed> for TakeFault {
    ghost use Rattle.std.specs.Prelude.{◌≡◌};
    ghost use Rattle.khe_io.specs.declared.texts.TakeFault.TheVariants.{ReadFault};

    ghost from_gives = { λ _ fault. fault ≡ ReadFault };

    fn from(_error: Failed) -> TakeFault {
        TakeFault::ReadFault
    }
}

impl From<AllocError> for TakeFault {
    ghost use Rattle.std.specs.Prelude.{◌≡◌};
    ghost use Rattle.khe_io.specs.declared.texts.TakeFault.TheVariants.{NoMemory as OutOfMemory};

    ghost from_gives = { λ _ fault. fault ≡ OutOfMemory };

    fn from(_error: AllocError) -> TakeFault {
        TakeFault::NoMemory
    }
}

/// Takes all bytes under a name of a shelf.
///
/// `ReadFault` comes only with a fault that the shelf counted, and on a sound shelf exactly where
/// the name is missing; with every other answer the shelf counted none. `TooLarge` comes only where
/// more than `limit` bytes stand under the name, and then no bytes are answered; reading stops with
/// the first piece beyond the limit. `NoMemory` comes where memory is refused. After any answer the
/// shelf holds what it held.
///
/// It costs the reads, of `PIECE_BYTES` each where the shelf gives as much, and copying each byte once; the
/// memory is at most about twice the text's, and a piece.
pub fn take_all<S: Shelf>(
    alloc: Global,
    shelf: &mut S,
    name: &str,
    limit: u64,
) -> Result<Seq<u8>, TakeFault>
    ensures whole { IfOk result (StandsUnder (S.holdings shelf.old) name.now) }
    ensures within { IfOk result (λ bytes. length bytes ≤ limit) }
    ensures too_large { IsErrOf result TakeFault.TooLarge → StandsAbove (S.holdings shelf.old) name.now limit }
    ensures fault { IsErrOf result TakeFault.ReadFault → Rose (S.faults shelf.old) (S.faults shelf.new) }
    ensures faultless { OnOk result (S.faults shelf.new ≡ S.faults shelf.old) }
    ensures faultless_above { IsErrOf result TakeFault.TooLarge → S.faults shelf.new ≡ S.faults shelf.old }
    ensures faultless_starved { IsErrOf result TakeFault.NoMemory → S.faults shelf.new ≡ S.faults shelf.old }
    ensures missing { IsTrue (S.is_sound shelf.old) → (IsErrOf result TakeFault.ReadFault ↔ IsMissing (S.holdings shelf.old) name.now) }

    ensures unchanged { S.holdings shelf.new ≡ S.holdings shelf.old }
    ensures counted { S.faults shelf.old ≤ S.faults shelf.new }
    ensures stays_sound { IsTrue (S.is_sound shelf.old) → IsTrue (S.is_sound shelf.new) }
{
    shelf.open(name)?;
    let mut room = vec![in alloc; 0u8; PIECE_BYTES]?;
    let piece = room.as_mut_slice();
    let mut bytes = Vec::new(alloc);
    loop {
        let count = shelf.read(piece)?;
        if count == 0 {
            return Ok(Seq { items: bytes });
        }
        if count as u64 > limit - bytes.len() as u64 {
            return Err(TakeFault::TooLarge);
        }
        bytes.extend_from_slice(&piece[..count])?;
    }
}

/// Gives a sink all these bytes, piece by piece. It takes no memory.
///
/// After `Ok` the sink took them all and counted no fault.
/// `Failed` comes only with a fault that the sink counted, and then the sink took some first bytes
/// of these. Where there are none, the sink is not called.
pub fn put_all<K: Sink>(out: &mut K, bytes: &[u8]) -> Result<(), Failed>
    ensures ok { OnOk result (Took (K.taken out.old) (K.taken out.new) bytes.now) }
    ensures failed { OnErr result (Rose (K.faults out.old) (K.faults out.new)) }
    ensures faultless { OnOk result (K.faults out.new ≡ K.faults out.old) }
    ensures front { OnErr result (TookFront (K.taken out.old) (K.taken out.new) bytes.now) }
    ensures counted { K.faults out.old ≤ K.faults out.new }
    ensures empty { bytes.now ≡ [] → IsOk result × (out.new ≡ out.old) }
{
    let mut rest = bytes;
    while !rest.is_empty() {
        let count = out.write(rest)?;
        rest = &rest[count..];
    }
    Ok(())
}
