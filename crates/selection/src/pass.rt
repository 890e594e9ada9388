// The two passes of the walk over an operation. Both go over a list part by part.

// The shape pass goes over groups: fields of one response name have one shape. The parent pass goes over subgroups: fields of one
// response name whose parents may be one have one field name and the same arguments.
#[derive(Clone, Copy, PartialEq, Eq)]
pub enum Pass {
    Shape,
    Parents,
}
