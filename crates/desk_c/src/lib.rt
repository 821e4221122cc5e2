// The C names of `desk`, as a static library exports them.
#![tactic(auto)]

ghost use Rattle.std.specs.Prelude.{◌≡◌, length};
ghost use Rattle.layout.specs.Entries.{judge_of, check_of, write_of, written_of, list_of, listed_of, read_of};
ghost use Rattle.codes.specs.Asked.{asked_of, set_asked, Leaves};
ghost use Rattle.codes.specs.Codes.{verdict_code, Fills};
ghost use Rattle.codes.specs.Words.{Tells};

mod batches;
mod catalogues;
mod logs;
mod tables;

#[unsafe(no_mangle)]
pub extern "C" fn loaf_judge(schema: &[u8]) -> u64
    ensures { result ≡ verdict_code (judge_of schema.now) }
{
    desk::loaf_judge(schema)
}

#[unsafe(no_mangle)]
pub extern "C" fn loaf_check(schema: &[u8], row: &[u8]) -> u64
    ensures { result ≡ verdict_code (check_of schema.now row.now) }
{
    desk::loaf_check(schema, row)
}

#[unsafe(no_mangle)]
pub extern "C" fn loaf_write(schema: &[u8], listing: &[u8], out: &mut [u8]) -> u64
    ensures { Fills
        (write_of schema.now listing.now (length out.old))
        (written_of schema.now listing.now out.old)
        result out.new }
{
    desk::loaf_write(schema, listing, out)
}

#[unsafe(no_mangle)]
pub extern "C" fn loaf_list(schema: &[u8], row: &[u8], out: &mut [u8]) -> u64
    ensures { Fills
        (list_of schema.now row.now (length out.old))
        (listed_of schema.now row.now out.old)
        result out.new }
{
    desk::loaf_list(schema, row, out)
}

#[unsafe(no_mangle)]
pub extern "C" fn loaf_read(schema: &[u8], row: &[u8], path: &[u32], answer: &mut [u64]) -> u64
    ensures { Tells (read_of schema.now row.now path.now) answer.old result answer.new }
{
    desk::loaf_read(schema, row, path, answer)
}

#[unsafe(no_mangle)]
pub extern "C" fn loaf_set(
    schema: &[u8],
    row: &mut [u8],
    path: &[u32],
    kind: u32,
    value: u64,
    bytes: &[u8],
) -> u64
    ensures { Leaves
        (set_asked schema.now row.old path.now (asked_of kind value bytes.now))
        row.old result row.new }
{
    desk::loaf_set(schema, row, path, kind, value, bytes)
}
