// The setting that a kind and a value stand for.
ghost use Rattle.std.specs.Prelude.{◌≡◌, List, ℕ};
ghost use Rattle.codes.specs.Asked.{bool_of, float32_of, asked_of, asked_means};

use answers::Setting;

fn of_bool(value: u64) -> Option<Setting>
    ensures { (u : List ℕ) → asked_means result u ≡ bool_of value }
{
    match value {
        0 => Some(Setting::Bool(false)),
        1 => Some(Setting::Bool(true)),
        _ => None,
    }
}

// The pattern's case keeps the bits, a NaN's or not.
fn of_float32(value: u64) -> Option<Setting>
    ensures { (u : List ℕ) → asked_means result u ≡ float32_of value }
{
    if value < 0x1_0000_0000 {
        return Some(Setting::Float32Nan(value as u32));
    }
    None
}

#[tactic(auto, unfolding(crate::specs::Asked::asked_of))]
pub fn of_kind(kind: u32, value: u64) -> Option<Setting>
    ensures { (u : List ℕ) → asked_means result u ≡ asked_of kind value u }
{
    match kind {
        0 => Some(Setting::Null),
        1 => of_bool(value),
        2 => Some(Setting::Number(words::signed::to_signed(value, 8))),
        3 => of_float32(value),
        4 => Some(Setting::Float64Nan(value)),
        5 => Some(Setting::Bytes),
        _ => None,
    }
}
