// The entries under C names. Each answers the refusal's number times 2^32, plus the length, or of a 7 the place; 0 in the upper half is
// done.
#![tactic(auto)]

ghost use Rattle.std.specs.Prelude.{◌≡◌, length};
ghost use Rattle.layout.specs.Entries.{judge_of, check_of, write_of, written_of, list_of, listed_of, read_of};
ghost use Rattle.codes.specs.Asked.{asked_of, set_asked, Leaves};
ghost use Rattle.codes.specs.Codes.{verdict_code, Fills};
ghost use Rattle.codes.specs.Words.{Tells};

use codes::told;

pub mod batches;
pub mod catalogues;
pub mod logs;
pub mod tables;

pub fn loaf_judge(schema: &[u8]) -> u64
    ensures { result ≡ verdict_code (judge_of schema.now) }
{
    codes::outcome_code(row::judge(schema))
}

pub fn loaf_check(schema: &[u8], row: &[u8]) -> u64
    ensures { result ≡ verdict_code (check_of schema.now row.now) }
{
    codes::outcome_code(row::check(schema, row))
}

pub fn loaf_write(schema: &[u8], listing: &[u8], out: &mut [u8]) -> u64
    ensures { Fills
        (write_of schema.now listing.now (length out.old))
        (written_of schema.now listing.now out.old)
        result out.new }
{
    codes::length_code(row::write(schema, listing, out))
}

pub fn loaf_list(schema: &[u8], row: &[u8], out: &mut [u8]) -> u64
    ensures { Fills
        (list_of schema.now row.now (length out.old))
        (listed_of schema.now row.now out.old)
        result out.new }
{
    codes::length_code(row::list(schema, row, out))
}

pub fn loaf_read(schema: &[u8], row: &[u8], path: &[u32], answer: &mut [u64]) -> u64
    ensures { Tells (read_of schema.now row.now path.now) answer.old result answer.new }
{
    told::put_answer(answer, row::read(schema, row, codes::path_of(path)))
}

// A kind as loaf_read tells it, 0 to 5; only a bool, a number or a float looks at the value, and only bytes at the bytes.
pub fn loaf_set(
    schema: &[u8],
    row: &mut [u8],
    path: &[u32],
    kind: u32,
    value: u64,
    bytes: &[u8],
) -> u64
    ensures { Leaves
        (set_asked schema.now row.old path.now (asked_of kind value bytes.now))
        row.old result row.new }
{
    asking::set(schema, row, path, kind, value, bytes)
}
