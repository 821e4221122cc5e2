// Writing a row from a listing: the whole listing is judged and measured first, so that nothing is written where it is refused.
#![tactic(auto)]

ghost use Rattle.std.specs.Prelude.{◌≡◌, length};
ghost use Rattle.layout.specs.Entries.{write_of, written_of};
ghost use Rattle.answers.specs.Meaning.{length_means};
ghost use Rattle.table.specs.Tables.{Table, schema_of};

use answers::Refusal;

// The row of a listing of the table's schema, at the start of the output. No byte is written before every refusal is past.
pub fn write(t: &[u64], listing: &[u8], out: &mut [u8]) -> Result<usize, Refusal>
    requires { Table t.now }
    ensures answer { length_means result ≡ write_of (schema_of t.now) listing.now (length out.old) }
    ensures bytes { out.new ≡ written_of (schema_of t.now) listing.now out.old }
{
    let Some(size) = measuring::measure_row(t, listing) else {
        return Err(Refusal::Listing);
    };
    if 16384 < size {
        return Err(Refusal::TooLong);
    }
    if out.len() < size {
        return Err(Refusal::Room { needed: size });
    }
    putting::put_row(t, listing, &mut out[..size]);
    Ok(size)
}
