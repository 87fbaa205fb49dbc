//! Changes of a map of fields.
ghost use Rattle.std.specs.Prelude.{◌≡◌, ◌+◌, ◌<◌, ◌++◌, ◌∷◌, [], Some, None, true, false, map, nat_eq, IsSome, OnOk, OnErr, ◌||◌, ◌==◌, is_some};
ghost use Rattle.worksheet.specs.declared.field.Field.{Field};
ghost use Rattle.worksheet.specs.Checks.{field_in, is_number, numbers};
ghost use Rattle.worksheet.specs.Edits.{AreApart, AllBelow, at_field, fields_without, moved, placed_field, with_input, with_outcome};
ghost use Rattle.worksheet.specs.inside.Entries.{AreFields, shown, reserved};
ghost use Rattle.indexmap.specs.IndexMap.{get};

use crate::field::{Answer, Field};
use crate::places::{count_fields, place_after, place_of, reserved_number};
use crate::slot::Slot;
use block_tree::{OutOfMemory, Reason, Text};
use indexmap::IndexMap;

/// Puts a number that has no entry after the others, without a field.
fn add_number(fields: &mut IndexMap<u32, Slot>, number: u32) -> Result<(), OutOfMemory>
    requires { get nat_eq fields.old number ≡ None }
    ensures ok { OnOk result (fields.new.entries ≡ fields.old.entries ++ (number, None) ∷ []) }
    ensures err { OnErr result (fields.new.entries ≡ fields.old.entries) }
{
    let slot = Slot::empty(*fields.allocator())?;
    match fields.insert(number, slot) {
        Ok(_) => Ok(()),
        Err(_) => Err(OutOfMemory),
    }
}

/// Holds the next number ready for a field, after the fields, and no other number any more. It isn't
/// ready yet.
pub(crate) fn reserve_number(fields: &mut IndexMap<u32, Slot>, next: u32) -> Result<(), OutOfMemory>
    requires fields { AreFields fields.old.entries }
    requires below { AllBelow next (numbers (shown fields.old.entries)) }
    requires absent { is_number (reserved fields.old.entries) next ≡ false }
    ensures ok { OnOk result (reserved fields.new.entries ≡ Some next) }
    ensures same { shown fields.new.entries ≡ shown fields.old.entries }
    ensures err { OnErr result (fields.new.entries ≡ fields.old.entries) }
    ensures fields { AreFields fields.new.entries }
{
    let has_earlier = reserved_number(fields).is_some();
    let earlier = count_fields(fields);
    add_number(fields, next)?;
    if has_earlier {
        fields.shift_remove_index(earlier);
    }
    Ok(())
}

/// Puts a field under its number, which is held ready for it, directly after the field with this
/// number, or first for 0.
pub(crate) fn put_field(fields: &mut IndexMap<u32, Slot>, after: u32, field: Field)
    requires ready { reserved fields.old.entries ≡ Some field.id }
    requires fields { AreFields fields.old.entries }
    requires apart { AreApart (numbers (shown fields.old.entries)) }
    requires place { ((after == 0) || is_some (field_in (shown fields.old.entries) after)) ≡ true }
    ensures made { shown fields.new.entries ≡ placed_field after field (shown fields.old.entries) }
    ensures fields { AreFields fields.new.entries }
{
    let from = count_fields(fields);
    let to = place_after(fields, after);
    fields[from].put(field);
    fields.move_index(from, to);
}

/// Takes the field with this number out and gives it up.
pub(crate) fn remove_field(fields: &mut IndexMap<u32, Slot>, id: u32)
    requires fields { AreFields fields.old.entries }
    requires apart { AreApart (numbers (shown fields.old.entries)) }
    requires there { IsSome (field_in (shown fields.old.entries) id) }
    ensures made { shown fields.new.entries ≡ fields_without id (shown fields.old.entries) }
    ensures fields { AreFields fields.new.entries }
{
    let at = place_of(fields, id);
    fields.shift_remove_index(at);
}

/// Moves a field directly after another, or first for 0.
pub(crate) fn move_field(fields: &mut IndexMap<u32, Slot>, id: u32, after: u32)
    requires fields { AreFields fields.old.entries }
    requires apart { AreApart (numbers (shown fields.old.entries)) }
    requires there { IsSome (field_in (shown fields.old.entries) id) }
    requires place { ((after == 0) || is_some (field_in (shown fields.old.entries) after)) ≡ true }
    requires other { (after == id) ≡ false }
    ensures made { shown fields.new.entries
        ≡ moved id after (shown fields.old.entries) (field_in (shown fields.old.entries) id) }
    ensures fields { AreFields fields.new.entries }
{
    let from = place_of(fields, id);
    let following = place_after(fields, after);
    let to = if from < following {
        following - 1
    } else {
        following
    };
    fields.move_index(from, to);
}

/// Gives the field with this number another input, and takes its answer or reason away. The earlier
/// input is handed back.
pub(crate) fn set_input(fields: &mut IndexMap<u32, Slot>, id: u32, input: Text) -> Text
    requires fields { AreFields fields.old.entries }
    requires apart { AreApart (numbers (shown fields.old.entries)) }
    requires there { IsSome (field_in (shown fields.old.entries) id) }
    ensures made { shown fields.new.entries
        ≡ map (at_field id (with_input input)) (shown fields.old.entries) }
    ensures fields { AreFields fields.new.entries }
{
    let at = place_of(fields, id);
    fields[at].set_input(input)
}

/// Gives the field with this number an answer, or the reason why there is none, or none of both.
pub(crate) fn set_outcome(
    fields: &mut IndexMap<u32, Slot>,
    id: u32,
    answer: Option<Answer>,
    lost: Option<Reason>,
)
    requires fields { AreFields fields.old.entries }
    requires apart { AreApart (numbers (shown fields.old.entries)) }
    requires there { IsSome (field_in (shown fields.old.entries) id) }
    ensures made { shown fields.new.entries
        ≡ map (at_field id (with_outcome answer lost)) (shown fields.old.entries) }
    ensures fields { AreFields fields.new.entries }
{
    let at = place_of(fields, id);
    fields[at].set_outcome(answer, lost);
}
