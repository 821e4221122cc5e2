// The table of a schema, and the entries by a table lent beside its schema, under C names. By the table that the schema gives an entry
// answers as its plain name does, and by any other it refuses with 1.
ghost use Rattle.std.specs.Prelude.{◌≡◌, length};
ghost use Rattle.layout.specs.Entries.{judge_of, check_of, write_of, written_of, list_of, listed_of, read_of};
ghost use Rattle.compare.specs.Lent.{schema_by};
ghost use Rattle.batch.specs.Entries as B;
ghost use Rattle.lent.specs.Tabulated.{tabulate_of, tabled_of};
ghost use Rattle.codes.specs.Asked.{asked_of, set_asked, Leaves};
ghost use Rattle.codes.specs.Batch.{fetch_refusal, fetch_words, check_code, check_words, Beside, AppendsTo, set_asked_in};
ghost use Rattle.codes.specs.Codes.{verdict_code, Fills};
ghost use Rattle.codes.specs.Words.{Told, Tells};

use codes::told;
use lent::batches;

pub fn loaf_table(schema: &[u8], out: &mut [u64]) -> u64
    ensures { Fills
        (tabulate_of schema.now (length out.old)) (tabled_of schema.now out.old)
        result out.new }
{
    codes::length_code(lent::table(schema, out))
}

pub fn loaf_judge_by(schema: &[u8], table: &[u64]) -> u64
    ensures { result ≡ verdict_code (judge_of (schema_by schema.now table.now)) }
{
    codes::outcome_code(lent::judge_by(schema, table))
}

pub fn loaf_check_by(schema: &[u8], table: &[u64], row: &[u8]) -> u64
    ensures { result ≡ verdict_code (check_of (schema_by schema.now table.now) row.now) }
{
    codes::outcome_code(lent::check_by(schema, table, row))
}

pub fn loaf_write_by(schema: &[u8], table: &[u64], listing: &[u8], out: &mut [u8]) -> u64
    ensures { Fills
        (write_of (schema_by schema.now table.now) listing.now (length out.old))
        (written_of (schema_by schema.now table.now) listing.now out.old)
        result out.new }
{
    codes::length_code(lent::write_by(schema, table, listing, out))
}

pub fn loaf_list_by(schema: &[u8], table: &[u64], row: &[u8], out: &mut [u8]) -> u64
    ensures { Fills
        (list_of (schema_by schema.now table.now) row.now (length out.old))
        (listed_of (schema_by schema.now table.now) row.now out.old)
        result out.new }
{
    codes::length_code(lent::list_by(schema, table, row, out))
}

pub fn loaf_read_by(
    schema: &[u8],
    table: &[u64],
    row: &[u8],
    path: &[u32],
    answer: &mut [u64],
) -> u64
    ensures { Tells
        (read_of (schema_by schema.now table.now) row.now path.now)
        answer.old result answer.new }
{
    told::put_answer(
        answer,
        lent::read_by(schema, table, row, codes::path_of(path)),
    )
}

pub fn loaf_set_by(
    schema: &[u8],
    table: &[u64],
    row: &mut [u8],
    path: &[u32],
    kind: u32,
    value: u64,
    bytes: &[u8],
) -> u64
    ensures { Leaves
        (set_asked (schema_by schema.now table.now)
        row.old path.now (asked_of kind value bytes.now))
        row.old result row.new }
{
    asking::set_by(schema, table, row, path, kind, value, bytes)
}

pub fn loaf_batch_fetch_by(
    schema: &[u8],
    table: &[u64],
    batch: &[u8],
    k: usize,
    answer: &mut [u64],
) -> u64
    ensures { Told 2
        (fetch_refusal (B.fetch_of (schema_by schema.now table.now) batch.now k))
        (fetch_words (B.fetch_of (schema_by schema.now table.now) batch.now k))
        answer.old result answer.new }
{
    told::fetched(answer, batches::fetch_by(schema, table, batch, k))
}

pub fn loaf_batch_check_by(schema: &[u8], table: &[u64], batch: &[u8], answer: &mut [u64]) -> u64
    ensures { Beside
        (check_code (B.check_of (schema_by schema.now table.now) batch.now))
        (check_words (B.check_of (schema_by schema.now table.now) batch.now))
        answer.old result answer.new }
{
    told::checked(answer, batches::check_by(schema, table, batch))
}

pub fn loaf_batch_append_by(
    schema: &[u8],
    table: &[u64],
    room: &mut [u8],
    used: usize,
    row: &[u8],
    answer: &mut [u64],
) -> u64
    ensures { AppendsTo
        (B.append_of (schema_by schema.now table.now) room.old used row.now)
        (B.appended_of (schema_by schema.now table.now) room.old used row.now)
        answer.old result room.new answer.new }
{
    told::appended(answer, batches::append_by(schema, table, room, used, row))
}

pub fn loaf_batch_read_by(
    schema: &[u8],
    table: &[u64],
    batch: &[u8],
    k: usize,
    path: &[u32],
    answer: &mut [u64],
) -> u64
    ensures { Tells
        (B.read_of (schema_by schema.now table.now) batch.now k path.now)
        answer.old result answer.new }
{
    told::put_answer(
        answer,
        batches::read_by(schema, table, batch, k, codes::path_of(path)),
    )
}

pub fn loaf_batch_set_by(
    schema: &[u8],
    table: &[u64],
    batch: &mut [u8],
    k: usize,
    path: &[u32],
    kind: u32,
    value: u64,
    bytes: &[u8],
) -> u64
    ensures { Leaves
        (set_asked_in (schema_by schema.now table.now)
        batch.old k path.now (asked_of kind value bytes.now))
        batch.old result batch.new }
{
    asking::set_in_by(schema, table, batch, k, path, kind, value, bytes)
}
