//! Several results that are made together, where memory may be refused to any of them.

ghost use Rattle.std.specs.Prelude.{◌≡◌, Err, IfErr, IfOk, Ok};

use crate::NoMemory;

/// Both values, where both could be made. Where memory was refused to one, the other is dropped.
///
/// It takes constant time and no memory. A record of many parts that own memory is made from nested pairs, with
/// one `?` at the end: so what was already made is dropped here when memory is refused, and not at an exit for
/// each part. All parts are tried, even after a refusal.
pub fn both<A: Drop, B: Drop>(
    first: Result<A, NoMemory>,
    second: Result<B, NoMemory>,
) -> Result<(A, B), NoMemory>
    ensures { IfOk result (λ p. (first ≡ Ok p.0) × (second ≡ Ok p.1)) }
{
    let first = first?;
    Ok((first, second?))
}

/// What was made, with the value that it was made from. Where nothing was made, the value is
/// dropped, and the error stays as it is.
///
/// It takes constant time and no memory.
pub fn beside<A: Drop, B: Drop, E: Drop>(made: Result<A, E>, other: B) -> Result<(A, B), E>
    ensures ok { IfOk result (λ p. (made ≡ Ok p.0) × (p.1 ≡ other)) }
    ensures err { IfErr result (λ e. made ≡ Err e) }
{
    match made {
        Ok(made) => Ok((made, other)),
        Err(error) => Err(error),
    }
}
