ghost use Rattle.std.specs.Prelude.{◌≡◌};
ghost use Rattle.std.specs.Str.Parse.{starts_with_minus, without_leading_sign};

/// Whether the text begins with a minus, and the text without its sign.
#[inline(always)]
pub fn split_sign(text: &[u8]) -> (bool, &[u8])
    ensures minus { result.0 ≡ starts_with_minus text.now }
    ensures unsigned { result.1.now ≡ without_leading_sign text.now }
{
    match text {
        [b'-', unsigned @ ..] => (true, unsigned),
        [b'+', unsigned @ ..] => (false, unsigned),
        _ => (false, text),
    }
}
