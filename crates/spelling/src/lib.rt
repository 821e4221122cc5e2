// What a string's and a binary's type asks of its bytes: wherever one is written, checked, read or set, this is asked. Most strings are
// short and ASCII: one word tells of them, with what stands beside them in b, and only the others are walked.
#![tactic(auto)]

ghost use Rattle.std.specs.Prelude.{◌-◌, ◌≤◌, length};
ghost use Rattle.words.specs.Bytes.{part};
ghost use Rattle.schema.specs.Types.{st, text_at};
ghost use Rattle.spelling.specs.Spelling.{TextKind, Padded, Spelling, SpellingIf};

// Whether the bytes from `at` up to `end` are text, where the kind k is a string's; a binary's may be any.
pub fn is_spelled(b: &[u8], k: usize, at: usize, end: usize) -> bool
    requires { TextKind k × (at ≤ end) × (end ≤ length b.now) }
    ensures { Spelling (text_at k) (part b.now at (end - at)) result }
{
    k != table::STRING || is_text_at(b, at, end)
}

// Whether the bytes of a string are text: by the word of b at whose start they stand, where that has them all, or by the walk.
fn is_text_at(b: &[u8], at: usize, end: usize) -> bool
    requires { (at ≤ end) × (end ≤ length b.now) }
    ensures { Spelling st (part b.now at (end - at)) result }
{
    (end - at <= 8 && 8 <= b.len() - at && words::texts::ascii8(b, at))
        || words::texts::is_text(b, at, end)
}

// Whether a string in a row, padded up to `next`, takes one word at most, and that is ASCII.
fn is_short(b: &[u8], at: usize, end: usize, next: usize) -> bool
    requires { Padded b.now at end next }
    ensures { SpellingIf st (part b.now at (end - at)) result }
{
    next - at <= 8 && words::texts::ascii8(b, next - 8)
}

// Whether a string in a row is text.
pub fn is_text_in(b: &[u8], at: usize, end: usize, next: usize) -> bool
    requires { Padded b.now at end next }
    ensures { Spelling st (part b.now at (end - at)) result }
{
    is_short(b, at, end, next) || words::texts::is_text(b, at, end)
}

// The same of a string or a binary, by its kind.
pub fn is_spelled_in(b: &[u8], k: usize, at: usize, end: usize, next: usize) -> bool
    requires { TextKind k × Padded b.now at end next }
    ensures { Spelling (text_at k) (part b.now at (end - at)) result }
{
    k != table::STRING || is_text_in(b, at, end, next)
}

// A look by the word alone, for a caller that takes no for an answer.
pub fn looks_spelled(b: &[u8], k: usize, at: usize, end: usize, next: usize) -> bool
    requires { TextKind k × Padded b.now at end next }
    ensures { SpellingIf (text_at k) (part b.now at (end - at)) result }
{
    k != table::STRING || is_short(b, at, end, next)
}
