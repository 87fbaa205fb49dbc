//! Where fields stand in their map.
ghost use Rattle.std.specs.Prelude.{◌≡◌, ◌≢◌, ◌+◌, ◌<◌, ◌≤◌, true, length, IsSome, slice_index_or, ◌||◌, ◌==◌, is_some};
ghost use Rattle.std.specs.Option.{option_copied};
ghost use Rattle.worksheet.specs.declared.field.Field.{Field};
ghost use Rattle.worksheet.specs.Checks.{field_in, numbers, is_number};
ghost use Rattle.worksheet.specs.inside.Words.{stands_after as place_test};
ghost use Rattle.worksheet.specs.Edits.{AreApart};
ghost use Rattle.worksheet.specs.inside.Entries.{AreFields, IsAfter, shown, reserved};

use crate::field::Field;
use crate::slot::Slot;
use indexmap::IndexMap;

/// The field with this number.
pub(crate) fn field_with(fields: &IndexMap<u32, Slot>, id: u32) -> Option<&Field>
    requires { AreFields fields.now.entries }
    ensures { option_copied result ≡ field_in (shown fields.now.entries) id }
{
    match fields.get(&id) {
        Some(slot) => slot.get(),
        None => None,
    }
}

/// The number that is held ready for a field, if one is.
pub(crate) fn reserved_number(fields: &IndexMap<u32, Slot>) -> Option<u32>
    requires { AreFields fields.now.entries }
    ensures { result ≡ reserved fields.now.entries }
{
    let (number, slot) = fields.last()?;
    match slot.get() {
        Some(_) => None,
        None => Some(*number),
    }
}

/// Whether this number is held ready for a field.
pub(crate) fn is_reserved(fields: &IndexMap<u32, Slot>, number: u32) -> bool
    requires { AreFields fields.now.entries }
    ensures { result ≡ is_number (reserved fields.now.entries) number }
{
    match reserved_number(fields) {
        Some(reserved) => reserved == number,
        None => false,
    }
}

/// How many fields there are.
pub(crate) fn count_fields(fields: &IndexMap<u32, Slot>) -> usize
    requires { AreFields fields.now.entries }
    ensures { result ≡ length (shown fields.now.entries) }
{
    match reserved_number(fields) {
        Some(_) => fields.len() - 1,
        None => fields.len(),
    }
}

/// The place of the field with this number.
pub(crate) fn place_of(fields: &IndexMap<u32, Slot>, id: u32) -> usize
    requires fields { AreFields fields.now.entries }
    requires there { IsSome (field_in (shown fields.now.entries) id) }
    ensures within { result < length (shown fields.now.entries) }
    ensures found { (d : Field) → (slice_index_or (shown fields.now.entries) result d).id ≡ id }
{
    match fields.get_index_of(&id) {
        Some(at) => at,
        None => unreachable!(),
    }
}

/// The place directly after the field with this number, or the first for 0.
pub(crate) fn place_after(fields: &IndexMap<u32, Slot>, after: u32) -> usize
    requires fields { AreFields fields.now.entries }
    requires place { ((after == 0) || is_some (field_in (shown fields.now.entries) after)) ≡ true }
    ensures first { after ≡ 0 → result ≡ 0 }
    ensures following { after ≢ 0 → (d : Field)
        → IsAfter after result d (shown fields.now.entries) }
    ensures within { result ≤ length (shown fields.now.entries) }
{
    // A map is no longer than `usize` counts: the place after its last is one more at most.
    let _count = fields.len();
    if after == 0 {
        0
    } else {
        place_of(fields, after) + 1
    }
}

/// Whether a field stands directly after another, first for 0.
pub(crate) fn stands_after(fields: &IndexMap<u32, Slot>, after: u32, id: u32) -> bool
    requires fields { AreFields fields.now.entries }
    requires apart { AreApart (numbers (shown fields.now.entries)) }
    requires there { IsSome (field_in (shown fields.now.entries) id) }
    ensures { result ≡ place_test after id (numbers (shown fields.now.entries)) }
{
    let at = place_of(fields, id);
    if at == 0 {
        return after == 0;
    }
    match fields.get_index(at - 1) {
        Some((before, _)) => *before == after,
        None => unreachable!(),
    }
}
