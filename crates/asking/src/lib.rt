// A setting that a C program asks for by a kind and a value, in a row or in a batch, plain and by a table lent beside the schema, and in a row
// by its schema's number in a catalogue. Where they stand for none it is refused with 8, after the refusals of the table or the catalogue, of the
// batch, of the row and of the place.
#![tactic(auto)]

ghost use Rattle.compare.specs.Lent.{schema_by};
ghost use Rattle.codes.specs.Asked.{asked_of, set_asked, Leaves};
ghost use Rattle.codes.specs.Batch.{set_asked_in};
ghost use Rattle.codes.specs.Catalogue.{set_asked_at};

use codes::kinds;
use lent::batches;

pub fn set(schema: &[u8], row: &mut [u8], path: &[u32], kind: u32, value: u64, bytes: &[u8]) -> u64
    ensures { Leaves
        (set_asked schema.now row.old path.now (asked_of kind value bytes.now))
        row.old result row.new }
{
    let p = codes::path_of(path);
    match kinds::of_kind(kind, value) {
        None => codes::unfit(row::check(schema, row), row::read(schema, row, p)),
        Some(x) => codes::outcome_code(row::set(schema, row, p, x, bytes)),
    }
}

pub fn set_in(
    schema: &[u8],
    batch: &mut [u8],
    k: usize,
    path: &[u32],
    kind: u32,
    value: u64,
    bytes: &[u8],
) -> u64
    ensures { Leaves
        (set_asked_in schema.now batch.old k path.now (asked_of kind value bytes.now))
        batch.old result batch.new }
{
    let p = codes::path_of(path);
    match kinds::of_kind(kind, value) {
        None => codes::unfit_in(
            batch::fetch(schema, batch, k),
            batch::read(schema, batch, k, p),
        ),
        Some(x) => codes::outcome_code(batch::set(schema, batch, k, p, x, bytes)),
    }
}

pub fn set_by(
    schema: &[u8],
    table: &[u64],
    row: &mut [u8],
    path: &[u32],
    kind: u32,
    value: u64,
    bytes: &[u8],
) -> u64
    ensures { Leaves
        (set_asked (schema_by schema.now table.now)
        row.old path.now (asked_of kind value bytes.now))
        row.old result row.new }
{
    let p = codes::path_of(path);
    match kinds::of_kind(kind, value) {
        None => codes::unfit(
            lent::check_by(schema, table, row),
            lent::read_by(schema, table, row, p),
        ),
        Some(x) => codes::outcome_code(lent::set_by(schema, table, row, p, x, bytes)),
    }
}

pub fn set_in_by(
    schema: &[u8],
    table: &[u64],
    batch: &mut [u8],
    k: usize,
    path: &[u32],
    kind: u32,
    value: u64,
    bytes: &[u8],
) -> u64
    ensures { Leaves
        (set_asked_in (schema_by schema.now table.now)
        batch.old k path.now (asked_of kind value bytes.now))
        batch.old result batch.new }
{
    let p = codes::path_of(path);
    match kinds::of_kind(kind, value) {
        None => codes::unfit_in(
            batches::fetch_by(schema, table, batch, k),
            batches::read_by(schema, table, batch, k, p),
        ),
        Some(x) => codes::outcome_code(batches::set_by(schema, table, batch, k, p, x, bytes)),
    }
}

pub fn set_at(
    catalogue: &[u8],
    number: usize,
    row: &mut [u8],
    path: &[u32],
    kind: u32,
    value: u64,
    bytes: &[u8],
) -> u64
    ensures { Leaves
        (set_asked_at catalogue.now number row.old path.now (asked_of kind value bytes.now))
        row.old result row.new }
{
    let p = codes::path_of(path);
    match kinds::of_kind(kind, value) {
        None => codes::unfit(
            catalogue::check(catalogue, number, row),
            catalogue::read(catalogue, number, row, p),
        ),
        Some(x) => codes::outcome_code(catalogue::set(catalogue, number, row, p, x, bytes)),
    }
}
