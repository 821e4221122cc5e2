// The entries of `catalogue` under C names. A number is below 16, so it stands in the code's lower half.
ghost use Rattle.std.specs.Prelude.{◌≡◌, length};
ghost use Rattle.compare.specs.Lent.{schema_by};
ghost use Rattle.catalogue.specs.Entries.{check_at, write_at, written_at, list_at, listed_at, read_at};
ghost use Rattle.codes.specs.Asked.{asked_of, Leaves};
ghost use Rattle.codes.specs.Catalogue.{AddsTo, set_asked_at};
ghost use Rattle.codes.specs.Codes.{verdict_code, Fills};
ghost use Rattle.codes.specs.Words.{Tells};

use codes::{numbers, told};

pub fn loaf_catalogue_add(catalogue: &mut [u8], schema: &[u8]) -> u64
    ensures { AddsTo catalogue.old schema.now result catalogue.new }
{
    numbers::number_code(catalogue::add(catalogue, schema))
}

pub fn loaf_catalogue_add_by(catalogue: &mut [u8], schema: &[u8], table: &[u64]) -> u64
    ensures { AddsTo catalogue.old (schema_by schema.now table.now) result catalogue.new }
{
    numbers::number_code(catalogue::add_by(catalogue, schema, table))
}

pub fn loaf_catalogue_check(catalogue: &[u8], number: usize, row: &[u8]) -> u64
    ensures { result ≡ verdict_code (check_at catalogue.now number row.now) }
{
    codes::outcome_code(catalogue::check(catalogue, number, row))
}

pub fn loaf_catalogue_write(catalogue: &[u8], number: usize, listing: &[u8], out: &mut [u8]) -> u64
    ensures { Fills
        (write_at catalogue.now number listing.now (length out.old))
        (written_at catalogue.now number listing.now out.old)
        result out.new }
{
    codes::length_code(catalogue::write(catalogue, number, listing, out))
}

pub fn loaf_catalogue_list(catalogue: &[u8], number: usize, row: &[u8], out: &mut [u8]) -> u64
    ensures { Fills
        (list_at catalogue.now number row.now (length out.old))
        (listed_at catalogue.now number row.now out.old)
        result out.new }
{
    codes::length_code(catalogue::list(catalogue, number, row, out))
}

pub fn loaf_catalogue_read(
    catalogue: &[u8],
    number: usize,
    row: &[u8],
    path: &[u32],
    answer: &mut [u64],
) -> u64
    ensures { Tells
        (read_at catalogue.now number row.now path.now)
        answer.old result answer.new }
{
    told::put_answer(
        answer,
        catalogue::read(catalogue, number, row, codes::path_of(path)),
    )
}

// A kind and a value as loaf_set takes them.
pub fn loaf_catalogue_set(
    catalogue: &[u8],
    number: usize,
    row: &mut [u8],
    path: &[u32],
    kind: u32,
    value: u64,
    bytes: &[u8],
) -> u64
    ensures { Leaves
        (set_asked_at catalogue.now number row.old path.now (asked_of kind value bytes.now))
        row.old result row.new }
{
    asking::set_at(catalogue, number, row, path, kind, value, bytes)
}
