//! Entries that are packed: their texts go to the letters, and their resources to those of all entries.

ghost use Rattle.std.specs.Prelude.{◌≡◌, ◌-◌, ◌≤◌, ◌++◌, ◌∷◌, [], All, IfOk, OnOk, OnErr};
ghost use Rattle.std.specs.Option.{option_map};
ghost use Rattle.xhstt_shape.specs.Packed.{ArePacked, IsEntryIn, IsGivenIn, IsLonger, IsTextIn, entries_at, entry_at, given_at, givens_at, reference_at, role_at, texts_of};

use crate::packed::{PackedEntry, PackedGiven, PackedName, fitting, pack_text};
use crate::records::{Name, RawEntry, RawGiven, Ref};
use khe_base::NoMemory;

/// Adds a reference.
fn pack_reference(letters: &mut Vec<u8>, reference: &Ref) -> Result<PackedName, NoMemory>
    ensures longer { IsLonger letters.old.items letters.new.items }
    ensures inside { IfOk result (λ n. IsTextIn letters.new.items n.text) }
    ensures is { IfOk result (λ n. reference_at letters.new.items n ≡ reference.now) }
{
    Ok(PackedName {
        text: pack_text(letters, reference.id.spelling())?,
        at: fitting(reference.at)?,
    })
}

/// Adds a reference, where there is one.
fn pack_optional(
    letters: &mut Vec<u8>,
    reference: &Option<Ref>,
) -> Result<Option<PackedName>, NoMemory>
    ensures longer { IsLonger letters.old.items letters.new.items }
    ensures inside { IfOk result (λ o. All (IsTextIn letters.new.items) (texts_of o)) }
    ensures is { IfOk result (λ o. option_map (reference_at letters.new.items) o ≡ reference.now) }
{
    match reference {
        Some(found) => Ok(Some(pack_reference(letters, found)?)),
        None => Ok(None),
    }
}

/// Adds a role, where there is one.
fn pack_role(letters: &mut Vec<u8>, role: &Option<Name>) -> Result<Option<PackedName>, NoMemory>
    ensures longer { IsLonger letters.old.items letters.new.items }
    ensures inside { IfOk result (λ o. All (IsTextIn letters.new.items) (texts_of o)) }
    ensures is { IfOk result (λ o. option_map (role_at letters.new.items) o ≡ role.now) }
{
    match role {
        Some(found) => Ok(Some(PackedName {
            text: pack_text(letters, found.text.spelling())?,
            at: fitting(found.at)?,
        })),
        None => Ok(None),
    }
}

/// Adds the texts of a resource.
fn pack_given(letters: &mut Vec<u8>, given: &RawGiven) -> Result<PackedGiven, NoMemory>
    ensures longer { IsLonger letters.old.items letters.new.items }
    ensures inside { IfOk result (IsGivenIn letters.new.items) }
    ensures is { IfOk result (λ g. given_at letters.new.items g ≡ given.now) }
{
    let reference = pack_reference(letters, &given.reference)?;
    let role = pack_role(letters, &given.role)?;
    Ok(PackedGiven { reference, role })
}

/// Adds a resource to those of all entries.
fn push_given(
    letters: &mut Vec<u8>,
    givens: &mut Vec<PackedGiven>,
    given: &RawGiven,
) -> Result<(), NoMemory>
    requires { All (IsGivenIn letters.old.items) givens.old.items }
    ensures longer { IsLonger letters.old.items letters.new.items }
    ensures more { IsLonger givens.old.items givens.new.items }
    ensures inside { All (IsGivenIn letters.new.items) givens.new.items }
    ensures is { OnOk result (givens_at letters.new.items givens.new.items ≡ givens_at letters.old.items givens.old.items ++ given.now ∷ []) }
{
    let packed = pack_given(letters, given)?;
    givens.push(packed)?;
    Ok(())
}

/// Adds resources to those of all entries.
fn push_givens(
    letters: &mut Vec<u8>,
    givens: &mut Vec<PackedGiven>,
    list: &[RawGiven],
) -> Result<(), NoMemory>
    requires { All (IsGivenIn letters.old.items) givens.old.items }
    ensures longer { IsLonger letters.old.items letters.new.items }
    ensures more { IsLonger givens.old.items givens.new.items }
    ensures inside { All (IsGivenIn letters.new.items) givens.new.items }
    ensures is { OnOk result (givens_at letters.new.items givens.new.items ≡ givens_at letters.old.items givens.old.items ++ list.now) }
{
    for given in list {
        push_given(letters, givens, given)?;
    }
    Ok(())
}

/// The row of an entry, whose resources are those of all entries from one place up to another.
pub(crate) fn row(
    reference: PackedName,
    duration: Option<u32>,
    time: Option<PackedName>,
    first: usize,
    end: usize,
) -> Result<PackedEntry, NoMemory>
    requires { first ≤ end }
    ensures { IfOk result (λ e. e ≡ record { reference = reference; duration = duration; time = time; first = first; count = end - first }) }
{
    Ok(PackedEntry {
        reference,
        duration,
        time,
        first: fitting(first as u64)?,
        count: fitting((end - first) as u64)?,
    })
}

/// Adds the texts and the resources of an entry.
fn pack_entry(
    letters: &mut Vec<u8>,
    givens: &mut Vec<PackedGiven>,
    entry: &RawEntry,
) -> Result<PackedEntry, NoMemory>
    requires { All (IsGivenIn letters.old.items) givens.old.items }
    ensures longer { IsLonger letters.old.items letters.new.items }
    ensures more { IsLonger givens.old.items givens.new.items }
    ensures inside { All (IsGivenIn letters.new.items) givens.new.items }
    ensures row { IfOk result (IsEntryIn letters.new.items givens.new.items) }
    ensures is { IfOk result (λ e. entry_at letters.new.items givens.new.items e ≡ entry.now) }
{
    let reference = pack_reference(letters, &entry.reference)?;
    let time = pack_optional(letters, &entry.time)?;
    let first = givens.len();
    push_givens(letters, givens, entry.resources.as_slice())?;
    row(reference, entry.duration, time, first, givens.len())
}

/// Adds an entry. Where memory is refused, the entries stay as they were.
pub(crate) fn push_entry(
    letters: &mut Vec<u8>,
    givens: &mut Vec<PackedGiven>,
    rows: &mut Vec<PackedEntry>,
    entry: &RawEntry,
) -> Result<(), NoMemory>
    requires { ArePacked letters.old.items givens.old.items rows.old.items }
    ensures packed { ArePacked letters.new.items givens.new.items rows.new.items }
    ensures ok { OnOk result (entries_at letters.new.items givens.new.items rows.new.items ≡ entries_at letters.old.items givens.old.items rows.old.items ++ entry.now ∷ []) }
    ensures err { OnErr result (entries_at letters.new.items givens.new.items rows.new.items ≡ entries_at letters.old.items givens.old.items rows.old.items) }
{
    let packed = pack_entry(letters, givens, entry)?;
    rows.push(packed)?;
    Ok(())
}
