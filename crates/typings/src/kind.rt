// The kind of a piece of evidence, by its first line.
ghost use Rattle.std.specs.Prelude.{◌≡◌};
ghost use Rattle.typings.specs.Kind.{is_typing};

// Whether the first line is a typing's header: a look at the first nine bytes.
pub fn is_typing(text: &[u8]) -> bool
    ensures { result ≡ is_typing text.now }
{
    text::same(text, b"typing\t1") | text::begins_with(text, b"typing\t1\n")
}
