// The bytes that a string or binary takes.
ghost use Rattle.std.specs.Prelude.{◌≡◌};
ghost use Rattle.words.specs.Tests.{is_yes};
ghost use Rattle.schema.specs.Types.{text_at};
ghost use Rattle.layout.specs.Layout.{spells?};
ghost use Rattle.spelling.specs.Spelling.{TextKind};

// Whether a string, or by its kind k a binary, takes the bytes.
pub fn is_fit(k: usize, bytes: &[u8]) -> bool
    requires { TextKind k }
    ensures { result ≡ is_yes (spells? (text_at k) bytes.now) }
{
    spelling::is_spelled(bytes, k, 0, bytes.len())
}
