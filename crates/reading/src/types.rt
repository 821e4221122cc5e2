// A type taken apart by the table, and a step from it by the schema alone. No type is more than eight deep, and what one holds seven.
ghost use Rattle.std.specs.Prelude.{[], ◌∷◌, ℕ};
ghost use Rattle.layout.specs.Reading.{type_along as type_on};
ghost use Rattle.table.specs.Tables.{InTable};
ghost use Rattle.reading.specs.Opening.{open_ty, OpenIs, Opens, FieldIn, IsField, IsEither, OfKind, OfMap, OfStruct, Kin, Lots};

use crate::TypeParts;

// The type at a place of the table.
pub fn open(t: &[u64], c: usize) -> TypeParts
    requires { InTable t.now c 8 }
    ensures { Opens t.now c result }
{
    let w = table::entry_at(t, c, 8);
    TypeParts {
        kind: table::place(w),
        first: c + 1,
        entry: w,
    }
}

// The place of field i, of fields that stand one after the other from a place on.
fn field_at(t: &[u64], first: usize, i: usize) -> usize
    requires { FieldIn t.now first i }
    ensures { IsField t.now first i result }
{
    let mut c = first;
    for j in 0..i {
        c = table::after(table::entry_at(t, c, 7));
    }
    c
}

// The place of a map's keys' type, which stands first, for 0, and of its values' type for all else.
fn either(t: &[u64], first: usize, i: usize) -> usize
    requires { InTable t.now first 7 }
    ensures { IsEither t.now first i result }
{
    if i == 0 {
        return first;
    }
    table::after(table::entry_at(t, first, 7))
}

// The type of a list's elements, whatever their number.
pub fn element(t: &[u64], x: TypeParts) -> TypeParts
    requires { OfKind t.now 9 x }
    ensures { (i : ℕ) → Kin t.now x i result }
{
    open(t, x.first)
}

// A map's keys (0) or values (1) as a list.
pub fn array(t: &[u64], x: TypeParts, i: usize) -> TypeParts
    requires { OfMap t.now x i }
    ensures { Kin t.now x i result }
{
    TypeParts {
        kind: table::LIST,
        first: either(t, x.first, i),
        entry: x.entry,
    }
}

// The type of a struct's field i.
pub fn field(t: &[u64], x: TypeParts, i: usize) -> TypeParts
    requires { OfStruct t.now x i }
    ensures { Kin t.now x i result }
{
    open(t, field_at(t, x.first, i))
}

// The type that step i leads to by the schema alone, if there is one.
pub fn kin(t: &[u64], x: TypeParts, i: usize) -> Option<TypeParts>
    requires { OpenIs t.now x }
    ensures { Lots t.now result (type_on (i ∷ []) (open_ty t.now x)) }
{
    let k = x.kind;
    if k < table::LIST {
        return None;
    }
    if k == table::LIST {
        return Some(element(t, x));
    }
    if k == table::MAP {
        if 2 <= i {
            return None;
        }
        return Some(array(t, x, i));
    }
    if table::count(x.entry) <= i {
        return None;
    }
    Some(field(t, x, i))
}
