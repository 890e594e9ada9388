// Output types: whether two type references have one shape. The left row falls with each step, so any image is compared.
ghost use Rattle.std.specs.Prelude.{◌≡◌};
ghost use Rattle.values.specs.Shape.{is_leaf, same_named, same_shape};

use tables::columns::{
    ReferenceKind, TypeKind, is_composite, reference_child, reference_kind, reference_kind_of,
    type_kind, type_kind_of,
};

// Scalars and enums.
#[tactic(auto, unfolding(crate::specs::Shape::is_leaf))]
fn is_leaf(kind: u32) -> bool
    ensures { result ≡ is_leaf kind }
{
    matches!(type_kind_of(kind), Some(TypeKind::Scalar | TypeKind::Enum))
}

// Two named types: leaves need one type; any two composites agree.
#[tactic(auto, unfolding(crate::specs::Shape::same_named))]
fn same_named_shape(image: &[u32], left: u32, right: u32) -> bool
    ensures { result ≡ same_named image.now left right }
{
    let ours = type_kind(image, left);
    let theirs = type_kind(image, right);
    if is_leaf(ours) {
        is_leaf(theirs) && left == right
    } else {
        is_composite(ours) && is_composite(theirs)
    }
}

// Two type references, unwrapped together, as long as they are of one kind. A list whose child is no earlier reference has no
// shape.
pub fn same_output_type_shape(image: &[u32], left: u32, right: u32) -> bool
    ensures { result ≡ same_shape image.now left right }
{
    let mut ours = left;
    let mut theirs = right;
    loop {
        let kind = reference_kind(image, ours);
        let other = reference_kind(image, theirs);
        if kind != other {
            return false;
        }
        let below = reference_child(image, ours);
        let across = reference_child(image, theirs);
        match reference_kind_of(kind) {
            Some(ReferenceKind::Named | ReferenceKind::NonNullNamed) => {
                return same_named_shape(image, below, across);
            }
            Some(ReferenceKind::List | ReferenceKind::NonNullList) => {
                if ours <= below {
                    return false;
                }
                ours = below;
                theirs = across;
            }
            None => return false,
        }
    }
}
