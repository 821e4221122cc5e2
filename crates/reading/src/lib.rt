// Reading one place of a row by its path.
#![tactic(auto)]

ghost use Rattle.answers.specs.Paths.{path_of};
ghost use Rattle.table.specs.Tables.{Table, schema_of};
ghost use Rattle.reading.specs.Finding.{Open, Finds};
ghost use Rattle.reading.specs.Texts.{Reads};

use answers::{Answer, Path, Refusal};

pub mod own;
mod slots;
mod steps;
mod types;
pub mod values;
mod walk;

// A type taken apart: its kind, the place of the first that it holds, and its entry. A map's array is a list, with the map's entry.
#[derive(Clone, Copy)]
pub struct TypeParts {
    pub kind: usize,
    pub first: usize,
    pub entry: u64,
}

// Where a child stands: its container's bitmap starts at the row's byte `bits` and it is child `number`; its slot or element starts at
// the row's byte `slot` and has `wide` bytes.
#[derive(Clone, Copy)]
pub struct Seat {
    pub bits: usize,
    pub number: usize,
    pub slot: usize,
    pub wide: usize,
}

// A place of the row: its type, its seat, and where its bytes start and how many they are.
#[derive(Clone, Copy)]
pub struct Place {
    pub opened: TypeParts,
    pub seat: Seat,
    pub start: usize,
    pub len: usize,
}

// Where a child's bytes are: it is null, or its start and size in the row.
#[derive(Clone, Copy)]
enum Child {
    Null(Seat),
    At(Seat, usize, usize),
}

// What a step or a path leads to: a null of a type, or a place.
#[derive(Clone, Copy)]
pub enum Found {
    Null(TypeParts, Seat),
    At(Place),
}

// What a path leads to in a row, or refused with 5, 6 or 7. The root stands in no container, and has all of the row's bytes.
pub fn find(t: &[u64], row: &[u8], path: Path) -> Result<Found, Refusal>
    requires { Open t.now row.now }
    ensures { Finds t.now row.now (path_of path) result }
{
    let n = path.len;
    if 16 < n {
        return Err(Refusal::NoPlace);
    }
    let opened = types::open(t, 0);
    let seat = Seat {
        bits: 0,
        number: 0,
        slot: 0,
        wide: 0,
    };
    let root = Place {
        opened,
        seat,
        start: 0,
        len: row.len(),
    };
    walk::along(t, row, root, path)
}

// The answer in a row that is not too long.
fn look_in(t: &[u64], row: &[u8], path: Path) -> Result<Answer, Refusal>
    requires { Open t.now row.now }
    ensures { Reads (schema_of t.now) row.now (path_of path) result }
{
    match find(t, row, path)? {
        Found::Null(..) => Ok(Answer::Null),
        Found::At(p) => Ok(values::answer(row, p)),
    }
}

// One place of a row, read by its path. A row that is too long is refused before all that its place could be refused for.
pub fn read(t: &[u64], row: &[u8], path: Path) -> Result<Answer, Refusal>
    requires { Table t.now }
    ensures { Reads (schema_of t.now) row.now (path_of path) result }
{
    if 16384 < row.len() {
        return Err(Refusal::TooLong);
    }
    look_in(t, row, path)
}
