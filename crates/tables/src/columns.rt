// The cells of the tables by name, and what they mean together: ranges, whole rows, innermost types, the set that a selection
// leads to. Every function is total, and its contract is the column of that name in specs/Columns. A reader is one line, its name is the
// column, and it gives the very word of any image; the kind that a word stands for is asked beside it.
ghost use Rattle.std.specs.Prelude.{◌≡◌, ◌+◌, ◌≤◌, ◌<◌, ◌*◌, ◌^◌, length};
ghost use Rattle.tables.specs.Image.{offset_at, width_at, word_at};
ghost use Rattle.tables.specs.Columns.{type_name, type_kind, reference_kind, reference_child, operation_variables, operation_directives, fragment_directives, set_parent, set_selections, selection_kind, response_name, field_name, field_type, field_arguments, selection_target, selection_directives, argument_name, argument_type, argument_default, value_kind, value_key, value_atom, value_members, variable_name, variable_type, variable_default};
ghost use Rattle.tables.specs.Columns.{range_at, set_at, selection_at, selection_from, is_composite, innermost, fragment_set, is_fragment_set, set_below, set_or_none, is_empty_set, is_list_reference, IsTypeKind, IsReferenceKind, IsSelectionKind, IsValueKind};

use crate::{
    ARGUMENTS, FRAGMENTS, NONE, OPERATIONS, REFERENCES, Range, SELECTIONS, SETS, TYPES, VALUES,
    VARIABLES, cell, count, offset, row_width, span, word,
};

// A row of table 4.
#[derive(Clone, Copy)]
pub struct Set {
    pub parent: u32,
    pub selections: Range,
}

// A row of table 5: `response` and `name` are the response name and the field name.
#[derive(Clone, Copy)]
pub struct Selection {
    pub kind: u32,
    pub response: u32,
    pub name: u32,
    pub reference: u32,
    pub arguments: Range,
    pub target: u32,
    pub directives: Range,
}

// Kinds of types, by number: a scalar is 0.
#[derive(Clone, Copy, PartialEq, Eq)]
pub enum TypeKind {
    Scalar,
    Object,
    Interface,
    Union,
    Enum,
    InputObject,
}

// Kinds of type references, by number: a nullable name is 0.
#[derive(Clone, Copy, PartialEq, Eq)]
pub enum ReferenceKind {
    Named,
    NonNullNamed,
    List,
    NonNullList,
}

// Kinds of selections, by number: a field is 0.
#[derive(Clone, Copy, PartialEq, Eq)]
pub enum SelectionKind {
    Field,
    Spread,
    Inline,
}

// Kinds of values, by number: null is 0.
#[derive(Clone, Copy, PartialEq, Eq)]
pub enum ValueKind {
    Null,
    Boolean,
    Int,
    Float,
    String,
    Enum,
    Variable,
    List,
    Object,
}

// The kind that a word stands for, if it stands for one. No TryFrom: its error would have a type and say nothing.
pub fn type_kind_of(word: u32) -> Option<TypeKind>
    ensures { IsTypeKind word result }
{
    match word {
        0 => Some(TypeKind::Scalar),
        1 => Some(TypeKind::Object),
        2 => Some(TypeKind::Interface),
        3 => Some(TypeKind::Union),
        4 => Some(TypeKind::Enum),
        5 => Some(TypeKind::InputObject),
        _ => None,
    }
}

pub fn reference_kind_of(word: u32) -> Option<ReferenceKind>
    ensures { IsReferenceKind word result }
{
    match word {
        0 => Some(ReferenceKind::Named),
        1 => Some(ReferenceKind::NonNullNamed),
        2 => Some(ReferenceKind::List),
        3 => Some(ReferenceKind::NonNullList),
        _ => None,
    }
}

pub fn selection_kind_of(word: u32) -> Option<SelectionKind>
    ensures { IsSelectionKind word result }
{
    match word {
        0 => Some(SelectionKind::Field),
        1 => Some(SelectionKind::Spread),
        2 => Some(SelectionKind::Inline),
        _ => None,
    }
}

pub fn value_kind_of(word: u32) -> Option<ValueKind>
    ensures { IsValueKind word result }
{
    match word {
        0 => Some(ValueKind::Null),
        1 => Some(ValueKind::Boolean),
        2 => Some(ValueKind::Int),
        3 => Some(ValueKind::Float),
        4 => Some(ValueKind::String),
        5 => Some(ValueKind::Enum),
        6 => Some(ValueKind::Variable),
        7 => Some(ValueKind::List),
        8 => Some(ValueKind::Object),
        _ => None,
    }
}

// Two words of a row, as first and count. The columns of a range are at most 7.
fn range(image: &[u32], table: u8, row: u32, column: u8) -> Range
    requires { column ≤ 7 }
    ensures { result ≡ range_at image.now table row column }
{
    Range {
        first: cell(image, table, row, column),
        count: cell(image, table, row, column + 1),
    }
}

// A type.
pub fn type_name(image: &[u32], row: u32) -> u32
    ensures { result ≡ type_name image.now row }
{
    cell(image, TYPES, row, 0)
}

pub fn type_kind(image: &[u32], row: u32) -> u32
    ensures { result ≡ type_kind image.now row }
{
    cell(image, TYPES, row, 1)
}

// A type reference.
pub fn reference_kind(image: &[u32], row: u32) -> u32
    ensures { result ≡ reference_kind image.now row }
{
    cell(image, REFERENCES, row, 0)
}

pub fn reference_child(image: &[u32], row: u32) -> u32
    ensures { result ≡ reference_child image.now row }
{
    cell(image, REFERENCES, row, 1)
}

// An operation: its variables, and the arguments of its directives.
pub fn operation_variables(image: &[u32], row: u32) -> Range
    ensures { result ≡ operation_variables image.now row }
{
    range(image, OPERATIONS, row, 0)
}

pub fn operation_directives(image: &[u32], row: u32) -> Range
    ensures { result ≡ operation_directives image.now row }
{
    range(image, OPERATIONS, row, 2)
}

pub fn fragment_directives(image: &[u32], row: u32) -> Range
    ensures { result ≡ fragment_directives image.now row }
{
    range(image, FRAGMENTS, row, 0)
}

// A set: its parent type and its selections.
pub fn set_parent(image: &[u32], row: u32) -> u32
    ensures { result ≡ set_parent image.now row }
{
    cell(image, SETS, row, 0)
}

pub fn set_selections(image: &[u32], row: u32) -> Range
    ensures { result ≡ set_selections image.now row }
{
    range(image, SETS, row, 1)
}

// A selection.
pub fn selection_kind(image: &[u32], row: u32) -> u32
    ensures { result ≡ selection_kind image.now row }
{
    cell(image, SELECTIONS, row, 0)
}

pub fn response_name(image: &[u32], row: u32) -> u32
    ensures { result ≡ response_name image.now row }
{
    cell(image, SELECTIONS, row, 1)
}

pub fn field_name(image: &[u32], row: u32) -> u32
    ensures { result ≡ field_name image.now row }
{
    cell(image, SELECTIONS, row, 2)
}

pub fn field_type(image: &[u32], row: u32) -> u32
    ensures { result ≡ field_type image.now row }
{
    cell(image, SELECTIONS, row, 3)
}

pub fn field_arguments(image: &[u32], row: u32) -> Range
    ensures { result ≡ field_arguments image.now row }
{
    range(image, SELECTIONS, row, 4)
}

pub fn selection_target(image: &[u32], row: u32) -> u32
    ensures { result ≡ selection_target image.now row }
{
    cell(image, SELECTIONS, row, 6)
}

pub fn selection_directives(image: &[u32], row: u32) -> Range
    ensures { result ≡ selection_directives image.now row }
{
    range(image, SELECTIONS, row, 7)
}

pub fn argument_name(image: &[u32], row: u32) -> u32
    ensures { result ≡ argument_name image.now row }
{
    cell(image, ARGUMENTS, row, 0)
}

// The type of the place that an argument goes to, a reference, and whether that place has a default.
pub fn argument_type(image: &[u32], row: u32) -> u32
    ensures { result ≡ argument_type image.now row }
{
    cell(image, ARGUMENTS, row, 1)
}

pub fn argument_default(image: &[u32], row: u32) -> u32
    ensures { result ≡ argument_default image.now row }
{
    cell(image, ARGUMENTS, row, 2)
}

// A value.
pub fn value_kind(image: &[u32], row: u32) -> u32
    ensures { result ≡ value_kind image.now row }
{
    cell(image, VALUES, row, 0)
}

pub fn value_key(image: &[u32], row: u32) -> u32
    ensures { result ≡ value_key image.now row }
{
    cell(image, VALUES, row, 1)
}

pub fn value_atom(image: &[u32], row: u32) -> u32
    ensures { result ≡ value_atom image.now row }
{
    cell(image, VALUES, row, 2)
}

// The members of a list or an object.
pub fn value_members(image: &[u32], row: u32) -> Range
    ensures { result ≡ value_members image.now row }
{
    range(image, VALUES, row, 2)
}

// A variable.
pub fn variable_name(image: &[u32], row: u32) -> u32
    ensures { result ≡ variable_name image.now row }
{
    cell(image, VARIABLES, row, 0)
}

pub fn variable_type(image: &[u32], row: u32) -> u32
    ensures { result ≡ variable_type image.now row }
{
    cell(image, VARIABLES, row, 1)
}

pub fn variable_default(image: &[u32], row: u32) -> u32
    ensures { result ≡ variable_default image.now row }
{
    cell(image, VARIABLES, row, 2)
}

// A whole row at once, with one look at the image's end, for speed; where that comes too soon, word by word.
#[tactic(auto, unfolding(crate::specs::Image::cell_at, crate::specs::Image::word_at))]
pub fn set_row(image: &[u32], row: u32) -> Set
    ensures { result ≡ set_at image.now row }
{
    let at = row_start(image, SETS, row);
    if at + 3 <= image.len() {
        return Set {
            parent: image[at],
            selections: Range {
                first: image[at + 1],
                count: image[at + 2],
            },
        };
    }
    Set {
        parent: set_parent(image, row),
        selections: set_selections(image, row),
    }
}

fn row_start(image: &[u32], table: u8, row: u32) -> usize
    ensures { (result ≡ offset_at image.now table + row * width_at image.now table) × (result < 2 ^ 41) }
{
    let above = span(row, row_width(word(image, 0), table));
    (offset(image, table) as usize) + above
}

#[tactic(auto, unfolding(crate::specs::Image::cell_at))]
pub fn selection_row(image: &[u32], row: u32) -> Selection
    ensures { result ≡ selection_at image.now row }
{
    let at = row_start(image, SELECTIONS, row);
    if at + 9 <= image.len() {
        return selection_at(image, at);
    }
    selection_by_words(image, row)
}

#[tactic(auto, unfolding(crate::specs::Image::word_at))]
fn selection_at(image: &[u32], at: usize) -> Selection
    requires { at + 9 ≤ length image.now }
    ensures { result ≡ selection_from (word_at image.now) at }
{
    Selection {
        kind: image[at],
        response: image[at + 1],
        name: image[at + 2],
        reference: image[at + 3],
        arguments: Range {
            first: image[at + 4],
            count: image[at + 5],
        },
        target: image[at + 6],
        directives: Range {
            first: image[at + 7],
            count: image[at + 8],
        },
    }
}

fn selection_by_words(image: &[u32], row: u32) -> Selection
    ensures { result ≡ selection_at image.now row }
{
    Selection {
        kind: selection_kind(image, row),
        response: response_name(image, row),
        name: field_name(image, row),
        reference: field_type(image, row),
        arguments: field_arguments(image, row),
        target: selection_target(image, row),
        directives: selection_directives(image, row),
    }
}

// Objects, interfaces and unions.
#[tactic(auto, unfolding(crate::specs::Columns::is_composite))]
pub fn is_composite(kind: u32) -> bool
    ensures { result ≡ is_composite kind }
{
    matches!(
        type_kind_of(kind),
        Some(TypeKind::Object | TypeKind::Interface | TypeKind::Union)
    )
}

// A word that is no kind counts as a list.
fn is_list_reference(kind: u32) -> bool
    ensures { result ≡ is_list_reference kind }
{
    !matches!(
        reference_kind_of(kind),
        Some(ReferenceKind::Named | ReferenceKind::NonNullNamed)
    )
}

// The type at the core of a reference. Children of lists are earlier references; where one is not, NONE, a row past all types: theorems
// cite it as a number. The loop follows children, and counts nothing.
pub fn innermost(image: &[u32], reference: u32) -> u32
    ensures { result ≡ innermost image.now reference }
{
    let mut row = reference;
    while is_list_reference(reference_kind(image, row)) {
        let child = reference_child(image, row);
        if row <= child {
            return NONE;
        }
        row = child;
    }
    reference_child(image, row)
}

// The set of a fragment; NONE past all rows, and no Option: theorems cite it as a number.
#[tactic(auto, unfolding(crate::specs::Columns::fragment_set))]
pub fn fragment_set(image: &[u32], fragment: u32) -> u32
    ensures { result ≡ fragment_set image.now fragment }
{
    count(image, OPERATIONS).saturating_add(fragment)
}

// Whether a set is a fragment's, and not an operation's or a selection's own.
#[tactic(auto, unfolding(crate::specs::Columns::is_fragment_set))]
pub fn is_fragment_set(image: &[u32], set: u32) -> bool
    ensures { result ≡ is_fragment_set image.now set }
{
    let operations = count(image, OPERATIONS);
    let fragments = count(image, FRAGMENTS);
    operations <= set && u64::from(set) < u64::from(operations) + u64::from(fragments)
}

// The set that a word names; NONE names none.
fn named_set(word: u32) -> Option<u32>
    ensures { result ≡ set_or_none word }
{
    (word != NONE).then_some(word)
}

// The set that a selection leads to: its own or its fragment's. The kind is compared as a word, for speed: this is asked of every
// selection of every walk.
#[tactic(auto, unfolding(crate::specs::Columns::set_below))]
pub fn set_below(image: &[u32], row: Selection) -> Option<u32>
    ensures { result ≡ set_or_none (set_below image.now row) }
{
    if row.kind == SelectionKind::Spread as u32 {
        named_set(fragment_set(image, row.target))
    } else {
        named_set(row.target)
    }
}

// The set that a field or an inline owns.
pub fn own_set(image: &[u32], row: u32) -> Option<u32>
    ensures { result ≡ set_or_none (selection_target image.now row) }
{
    named_set(selection_target(image, row))
}

pub fn is_empty_set(image: &[u32], set: u32) -> bool
    ensures { result ≡ is_empty_set image.now set }
{
    set_selections(image, set).count == 0
}
