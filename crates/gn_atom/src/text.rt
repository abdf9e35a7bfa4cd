ghost use Rattle.std.specs.Prelude.{◌≡◌, map};
ghost use Rattle.std.specs.List.{list_all};
ghost use Rattle.gn_kinds.specs.Text as is;

fn is_id_byte(byte: u8) -> bool
    ensures { result ≡ is.is_id_byte byte }
{
    byte.is_ascii_lowercase() || byte.is_ascii_digit() || byte == b'_'
}

fn are_id_bytes(bytes: &[u8]) -> bool
    ensures { result ≡ list_all is.is_id_byte bytes.now }
{
    bytes.iter().all(|byte| is_id_byte(*byte))
}

/// Reports whether the text is an id: 1 to 32 of `a` to `z`, `0` to `9` and `_`.
pub fn is_id(text: &str) -> bool
    ensures { result ≡ is.is_id text.now }
{
    let bytes = text.as_bytes();
    0 < bytes.len() && bytes.len() <= 32 && are_id_bytes(bytes)
}

fn are_name_bytes(bytes: &[u8]) -> bool
    ensures { result ≡ list_all is.is_name_byte bytes.now }
{
    bytes.iter().all(|byte| 33 <= *byte && *byte <= 126)
}

/// Reports whether the text may name a column: 1 to 64 bytes from `!` to `~`, and not `position`.
pub(crate) fn is_column_name(text: &str) -> bool
    ensures { result ≡ is.is_column_name text.now }
{
    let bytes = text.as_bytes();
    0 < bytes.len() && bytes.len() <= 64 && are_name_bytes(bytes) && text != "position"
}

fn are_printed_bytes(bytes: &[u8]) -> bool
    ensures { result ≡ list_all is.is_printed_byte bytes.now }
{
    bytes.iter().all(|byte| 32 <= *byte && *byte != 127)
}

/// Reports whether the text may name a file: 1 to 255 bytes without control characters.
pub(crate) fn is_file_name(text: &str) -> bool
    ensures { result ≡ is.is_file_name text.now }
{
    let bytes = text.as_bytes();
    0 < bytes.len() && bytes.len() <= 255 && are_printed_bytes(bytes)
}

/// Reports whether the text is one of these words.
pub(crate) fn is_word(words: &'static [&'static str], text: &str) -> bool
    ensures { result ≡ is.is_word (map (λ w. w.now) words.now) text.now }
{
    for word in words {
        if *word == text {
            return true;
        }
    }
    false
}
