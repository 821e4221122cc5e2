// The names of catalogues.
ghost use Rattle.std.specs.Prelude.{◌≡◌, length};
ghost use Rattle.compare.specs.Lent.{schema_by};
ghost use Rattle.catalogue.specs.Entries.{check_at, write_at, written_at, list_at, listed_at, read_at};
ghost use Rattle.codes.specs.Asked.{asked_of, Leaves};
ghost use Rattle.codes.specs.Catalogue.{AddsTo, set_asked_at};
ghost use Rattle.codes.specs.Codes.{verdict_code, Fills};
ghost use Rattle.codes.specs.Words.{Tells};

#[unsafe(no_mangle)]
pub extern "C" fn loaf_catalogue_add(catalogue: &mut [u8], schema: &[u8]) -> u64
    ensures { AddsTo catalogue.old schema.now result catalogue.new }
{
    desk::catalogues::loaf_catalogue_add(catalogue, schema)
}

#[unsafe(no_mangle)]
pub extern "C" fn loaf_catalogue_add_by(catalogue: &mut [u8], schema: &[u8], table: &[u64]) -> u64
    ensures { AddsTo catalogue.old (schema_by schema.now table.now) result catalogue.new }
{
    desk::catalogues::loaf_catalogue_add_by(catalogue, schema, table)
}

#[unsafe(no_mangle)]
pub extern "C" fn loaf_catalogue_check(catalogue: &[u8], number: usize, row: &[u8]) -> u64
    ensures { result ≡ verdict_code (check_at catalogue.now number row.now) }
{
    desk::catalogues::loaf_catalogue_check(catalogue, number, row)
}

#[unsafe(no_mangle)]
pub extern "C" fn loaf_catalogue_write(
    catalogue: &[u8],
    number: usize,
    listing: &[u8],
    out: &mut [u8],
) -> u64
    ensures { Fills
        (write_at catalogue.now number listing.now (length out.old))
        (written_at catalogue.now number listing.now out.old)
        result out.new }
{
    desk::catalogues::loaf_catalogue_write(catalogue, number, listing, out)
}

#[unsafe(no_mangle)]
pub extern "C" fn loaf_catalogue_list(
    catalogue: &[u8],
    number: usize,
    row: &[u8],
    out: &mut [u8],
) -> u64
    ensures { Fills
        (list_at catalogue.now number row.now (length out.old))
        (listed_at catalogue.now number row.now out.old)
        result out.new }
{
    desk::catalogues::loaf_catalogue_list(catalogue, number, row, out)
}

#[unsafe(no_mangle)]
pub extern "C" fn loaf_catalogue_read(
    catalogue: &[u8],
    number: usize,
    row: &[u8],
    path: &[u32],
    answer: &mut [u64],
) -> u64
    ensures { Tells
        (read_at catalogue.now number row.now path.now)
        answer.old result answer.new }
{
    desk::catalogues::loaf_catalogue_read(catalogue, number, row, path, answer)
}

#[unsafe(no_mangle)]
pub extern "C" fn loaf_catalogue_set(
    catalogue: &[u8],
    number: usize,
    row: &mut [u8],
    path: &[u32],
    kind: u32,
    value: u64,
    bytes: &[u8],
) -> u64
    ensures { Leaves
        (set_asked_at catalogue.now number row.old path.now (asked_of kind value bytes.now))
        row.old result row.new }
{
    desk::catalogues::loaf_catalogue_set(catalogue, number, row, path, kind, value, bytes)
}
