// The entries of `batch` that take a schema, by a table lent beside it.
ghost use Rattle.std.specs.Prelude.{◌≡◌};
ghost use Rattle.compare.specs.Lent.{schema_by};
ghost use Rattle.answers.specs.Meaning.{read_means, setting_of};
ghost use Rattle.answers.specs.Paths.{path_of};
ghost use Rattle.setting.specs.Writes.{SetAs};
ghost use Rattle.batch.specs.Entries.{fetch_of, check_of, read_of, set_of};
ghost use Rattle.batch.specs.Meaning.{fetch_means, check_means, Appends};

use crate::judge_by;
use answers::{Answer, Path, Refusal, Setting, Span};
use batch::frames::find;
use batch::{Fault, Fetched};

pub fn fetch_by(schema: &[u8], table: &[u64], batch: &[u8], k: usize) -> Result<Fetched, Refusal>
    ensures { fetch_means result ≡ fetch_of (schema_by schema.now table.now) batch.now k }
{
    judge_by(schema, table)?;
    let Span { start, end } = find(batch, k)?;
    engine::check(table, &batch[start..end])?;
    Ok(Fetched {
        start,
        len: end - start,
    })
}

pub fn check_by(schema: &[u8], table: &[u64], batch: &[u8]) -> Result<(), Fault>
    ensures { check_means result ≡ check_of (schema_by schema.now table.now) batch.now }
{
    judge_by(schema, table)?;
    batch::check_rows(table, batch)
}

pub fn append_by(
    schema: &[u8],
    table: &[u64],
    room: &mut [u8],
    used: usize,
    row: &[u8],
) -> Result<usize, Refusal>
    ensures { Appends
        (schema_by schema.now table.now) room.old used row.now result room.new }
{
    judge_by(schema, table)?;
    if room.len() < used {
        return Err(Refusal::Batch);
    }
    batch::count(&room[..used])?;
    engine::check(table, row)?;
    batch::frames::put_row(room, used, row)
}

pub fn read_by(
    schema: &[u8],
    table: &[u64],
    batch: &[u8],
    k: usize,
    path: Path,
) -> Result<Answer, Refusal>
    ensures { read_means result ≡ read_of (schema_by schema.now table.now) batch.now k (path_of path) }
{
    judge_by(schema, table)?;
    let at = find(batch, k)?;
    reading::read(table, &batch[at.start..at.end], path)
}

pub fn set_by(
    schema: &[u8],
    table: &[u64],
    batch: &mut [u8],
    k: usize,
    path: Path,
    value: Setting,
    bytes: &[u8],
) -> Result<(), Refusal>
    ensures { SetAs
        (set_of (schema_by schema.now table.now) batch.old k (path_of path) (setting_of value bytes.now))
        batch.old batch.new result }
{
    judge_by(schema, table)?;
    let row = find(batch, k)?;
    engine::set(table, &mut batch[row.start..row.end], path, value, bytes)
}
