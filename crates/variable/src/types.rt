// Whether a variable may stand at an argument (kind 13): IsVariableUsageAllowed and AreTypesCompatible of the specification, on
// reference rows. Each contract is a definition of specs/Definitions, for every image.
ghost use Rattle.std.specs.Prelude.{◌≡◌, not, ◌&&◌};
ghost use Rattle.tables.specs.Columns.{reference_kind, reference_word, is_list_reference};
ghost use Rattle.variable.specs.Types.{is_non_null};
ghost use Rattle.variable.specs.Definitions.{ReadsAs, agrees_at, compatible, has_default, usage_allowed};

use tables::columns::{
    ReferenceKind, argument_default, argument_type, reference_child, reference_kind,
    reference_kind_of, variable_default, variable_type,
};

// The kind of a reference. A word that is no kind counts as a list's.
#[tactic(auto, unfolding(crate::specs::Types::is_non_null))]
fn kind_of(image: &[u32], reference: u32) -> ReferenceKind
    ensures { ReadsAs (reference_kind image.now reference) result }
{
    reference_kind_of(reference_kind(image, reference)).unwrap_or(ReferenceKind::List)
}

fn is_list(kind: ReferenceKind) -> bool
    ensures { result ≡ is_list_reference (reference_word kind) }
{
    matches!(kind, ReferenceKind::List | ReferenceKind::NonNullList)
}

#[tactic(auto, unfolding(crate::specs::Types::is_non_null))]
fn is_non_null(kind: ReferenceKind) -> bool
    ensures { result ≡ is_non_null (reference_word kind) }
{
    matches!(
        kind,
        ReferenceKind::NonNullNamed | ReferenceKind::NonNullList
    )
}

// Whether null may stand at the variable, and not at the place.
fn is_place_stricter(variable: ReferenceKind, place: ReferenceKind) -> bool
    ensures { result ≡ (is_non_null (reference_word place) && not (is_non_null (reference_word variable))) }
{
    is_non_null(place) && !is_non_null(variable)
}

// Whether a reference of one kind may stand at a place of another, as far as the kinds say. A dropped non-null does not count.
#[tactic(auto, unfolding(crate::specs::Definitions::agrees_at, crate::specs::Definitions::alike))]
fn do_kinds_agree(variable: ReferenceKind, place: ReferenceKind, dropped: bool) -> bool
    ensures { result ≡ agrees_at (reference_word variable) (reference_word place) dropped }
{
    is_list(variable) == is_list(place) && (dropped || !is_place_stricter(variable, place))
}

// AreTypesCompatible; `dropped` takes the place's outer non-null away. The loop follows children, and the variable's row falls.
pub fn are_types_compatible(image: &[u32], variable: u32, place: u32, dropped: bool) -> bool
    ensures { result ≡ compatible image.now variable place dropped }
{
    let mut ours = variable;
    let mut theirs = place;
    let mut free = dropped;
    while do_kinds_agree(kind_of(image, ours), kind_of(image, theirs), free) {
        let below = reference_child(image, ours);
        let across = reference_child(image, theirs);
        if !is_list(kind_of(image, ours)) {
            return below == across;
        }
        if ours <= below {
            return false;
        }
        ours = below;
        theirs = across;
        free = false;
    }
    false
}

// Whether the variable has a default, or the place of the argument.
fn has_default(image: &[u32], variable: u32, argument: u32) -> bool
    ensures { result ≡ has_default image.now variable argument }
{
    variable_default(image, variable) != 0 || argument_default(image, argument) != 0
}

// IsVariableUsageAllowed, of a variable row at an argument row.
pub fn is_variable_usage_allowed(image: &[u32], variable: u32, argument: u32) -> bool
    ensures { result ≡ usage_allowed image.now variable argument }
{
    let ours = variable_type(image, variable);
    let theirs = argument_type(image, argument);
    let dropped = is_place_stricter(kind_of(image, ours), kind_of(image, theirs));
    (!dropped || has_default(image, variable, argument))
        && are_types_compatible(image, ours, theirs, dropped)
}
