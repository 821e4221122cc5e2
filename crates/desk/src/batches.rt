// The entries of `batch` under C names. A count, a place and a length may be over 32 bits, so they stand in words lent beside the code.
ghost use Rattle.batch.specs.Entries.{count_of, fetch_of, check_of, append_of, appended_of, read_of};
ghost use Rattle.codes.specs.Asked.{asked_of, Leaves};
ghost use Rattle.codes.specs.Batch.{count_refusal, count_words, fetch_refusal, fetch_words, check_code, check_words, Beside, AppendsTo, set_asked_in};
ghost use Rattle.codes.specs.Words.{Told, Tells};

use codes::told;

pub fn loaf_batch_count(batch: &[u8], answer: &mut [u64]) -> u64
    ensures { Told 1
        (count_refusal (count_of batch.now)) (count_words (count_of batch.now))
        answer.old result answer.new }
{
    told::counted(answer, batch::count(batch))
}

pub fn loaf_batch_fetch(schema: &[u8], batch: &[u8], k: usize, answer: &mut [u64]) -> u64
    ensures { Told 2
        (fetch_refusal (fetch_of schema.now batch.now k)) (fetch_words (fetch_of schema.now batch.now k))
        answer.old result answer.new }
{
    told::fetched(answer, batch::fetch(schema, batch, k))
}

pub fn loaf_batch_check(schema: &[u8], batch: &[u8], answer: &mut [u64]) -> u64
    ensures { Beside
        (check_code (check_of schema.now batch.now)) (check_words (check_of schema.now batch.now))
        answer.old result answer.new }
{
    told::checked(answer, batch::check(schema, batch))
}

pub fn loaf_batch_append(
    schema: &[u8],
    room: &mut [u8],
    used: usize,
    row: &[u8],
    answer: &mut [u64],
) -> u64
    ensures { AppendsTo
        (append_of schema.now room.old used row.now)
        (appended_of schema.now room.old used row.now)
        answer.old result room.new answer.new }
{
    told::appended(answer, batch::append(schema, room, used, row))
}

pub fn loaf_batch_read(
    schema: &[u8],
    batch: &[u8],
    k: usize,
    path: &[u32],
    answer: &mut [u64],
) -> u64
    ensures { Tells
        (read_of schema.now batch.now k path.now)
        answer.old result answer.new }
{
    told::put_answer(answer, batch::read(schema, batch, k, codes::path_of(path)))
}

pub fn loaf_batch_set(
    schema: &[u8],
    batch: &mut [u8],
    k: usize,
    path: &[u32],
    kind: u32,
    value: u64,
    bytes: &[u8],
) -> u64
    ensures { Leaves
        (set_asked_in schema.now batch.old k path.now (asked_of kind value bytes.now))
        batch.old result batch.new }
{
    asking::set_in(schema, batch, k, path, kind, value, bytes)
}
