// The parent type of the set that each selection stands in, a word for each selection. Total; what it writes stands under `Good`.
ghost use Rattle.std.specs.Prelude.{◌≡◌, eqb};
ghost use Rattle.tables.specs.Columns.{object_type, type_kind};
ghost use Rattle.selection.specs.Parents.{Filled, Parents};

use lists::put;
use tables::columns::{TypeKind, set_row, type_kind, type_kind_of};
use tables::{Range, SETS, count};

// The words of a set's rows become its parent.
fn fill_parent(s: &mut [u32], rows: Range, parent: u32)
    ensures { Filled rows.first rows.count parent s.old s.new }
{
    for i in 0..rows.count {
        put(s, rows.row(i) as usize, parent);
    }
}

// Set by set.
pub fn write_parents(image: &[u32], s: &mut [u32])
    ensures { Parents image.now s.old s.new }
{
    for i in 0..count(image, SETS) {
        let set = set_row(image, i);
        fill_parent(s, set.selections, set.parent);
    }
}

// Whether a parent is an object type, and so no interface or union.
pub(crate) fn is_object(image: &[u32], parent: u32) -> bool
    ensures { result ≡ eqb (type_kind image.now parent) object_type }
{
    matches!(
        type_kind_of(type_kind(image, parent)),
        Some(TypeKind::Object)
    )
}
