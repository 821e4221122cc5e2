// The names of batches.
ghost use Rattle.batch.specs.Entries.{count_of, fetch_of, check_of, append_of, appended_of, read_of};
ghost use Rattle.codes.specs.Asked.{asked_of, Leaves};
ghost use Rattle.codes.specs.Batch.{count_refusal, count_words, fetch_refusal, fetch_words, check_code, check_words, Beside, AppendsTo, set_asked_in};
ghost use Rattle.codes.specs.Words.{Told, Tells};

#[unsafe(no_mangle)]
pub extern "C" fn loaf_batch_count(batch: &[u8], answer: &mut [u64]) -> u64
    ensures { Told 1
        (count_refusal (count_of batch.now)) (count_words (count_of batch.now))
        answer.old result answer.new }
{
    desk::batches::loaf_batch_count(batch, answer)
}

#[unsafe(no_mangle)]
pub extern "C" fn loaf_batch_fetch(schema: &[u8], batch: &[u8], k: usize, answer: &mut [u64]) -> u64
    ensures { Told 2
        (fetch_refusal (fetch_of schema.now batch.now k)) (fetch_words (fetch_of schema.now batch.now k))
        answer.old result answer.new }
{
    desk::batches::loaf_batch_fetch(schema, batch, k, answer)
}

#[unsafe(no_mangle)]
pub extern "C" fn loaf_batch_check(schema: &[u8], batch: &[u8], answer: &mut [u64]) -> u64
    ensures { Beside
        (check_code (check_of schema.now batch.now)) (check_words (check_of schema.now batch.now))
        answer.old result answer.new }
{
    desk::batches::loaf_batch_check(schema, batch, answer)
}

#[unsafe(no_mangle)]
pub extern "C" fn loaf_batch_append(
    schema: &[u8],
    room: &mut [u8],
    used: usize,
    row: &[u8],
    answer: &mut [u64],
) -> u64
    ensures { AppendsTo
        (append_of schema.now room.old used row.now)
        (appended_of schema.now room.old used row.now)
        answer.old result room.new answer.new }
{
    desk::batches::loaf_batch_append(schema, room, used, row, answer)
}

#[unsafe(no_mangle)]
pub extern "C" fn loaf_batch_read(
    schema: &[u8],
    batch: &[u8],
    k: usize,
    path: &[u32],
    answer: &mut [u64],
) -> u64
    ensures { Tells
        (read_of schema.now batch.now k path.now)
        answer.old result answer.new }
{
    desk::batches::loaf_batch_read(schema, batch, k, path, answer)
}

#[unsafe(no_mangle)]
pub extern "C" fn loaf_batch_set(
    schema: &[u8],
    batch: &mut [u8],
    k: usize,
    path: &[u32],
    kind: u32,
    value: u64,
    bytes: &[u8],
) -> u64
    ensures { Leaves
        (set_asked_in schema.now batch.old k path.now (asked_of kind value bytes.now))
        batch.old result batch.new }
{
    desk::batches::loaf_batch_set(schema, batch, k, path, kind, value, bytes)
}
