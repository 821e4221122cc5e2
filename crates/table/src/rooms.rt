// The table of a schema, worked out in a room on the stack by the schema's size and handed to a step. Nothing is answered where the schema is
// refused.
ghost use Rattle.std.specs.Prelude.{◌≡◌, ◌*◌, ◌≤◌, length, IfSome, IsNone};
ghost use Rattle.schema.specs.Reading.{judged};
ghost use Rattle.schema.specs.declared.Judged.TheVariants.{Refused};
ghost use Rattle.table.specs.Steps.{TakesTable, GivesAt, TakesOut, LeavesAt};

fn with_out_in<T, R, F: FnOnce(&[u64], &mut [T]) -> R + Drop>(
    schema: &[u8],
    room: &mut [u64],
    out: &mut [T],
    step: F,
) -> Option<R>
    requires room { length schema.now ≤ 2 * length room.old }
    requires takes { TakesOut (F.pre step) schema.now out.old }
    ensures made { IfSome result (λ r. LeavesAt (F.post step) schema.now out.old r out.new) }
    ensures refused { IsNone result → (judged schema.now ≡ Refused) × (out.new ≡ out.old) }
{
    let n = crate::build(schema, room);
    if n == 0 {
        return None;
    }
    Some(step(&room[..n], out))
}

// A step that is lent an output beside the table.
pub fn with_out<T, R, F: FnOnce(&[u64], &mut [T]) -> R + Drop>(
    schema: &[u8],
    out: &mut [T],
    step: F,
) -> Option<R>
    requires { TakesOut (F.pre step) schema.now out.old }
    ensures made { IfSome result (λ r. LeavesAt (F.post step) schema.now out.old r out.new) }
    ensures refused { IsNone result → (judged schema.now ≡ Refused) × (out.new ≡ out.old) }
{
    match schema.len() {
        0..=64 => with_out_in(schema, &mut [0; 32], out, step),
        65..=256 => with_out_in(schema, &mut [0; 128], out, step),
        257..=1024 => with_out_in(schema, &mut [0; 512], out, step),
        _ => None,
    }
}

// A step that only reads.
pub fn with<R, F: FnOnce(&[u64]) -> R + Drop>(schema: &[u8], step: F) -> Option<R>
    requires { TakesTable (F.pre step) schema.now }
    ensures made { IfSome result (λ r. GivesAt (F.post step) schema.now r) }
    ensures refused { IsNone result → judged schema.now ≡ Refused }
{
    with_out(
        schema,
        &mut [0u8; 0],
        |t, _|
            requires { F.pre step t }
        { step(t) },
    )
}
