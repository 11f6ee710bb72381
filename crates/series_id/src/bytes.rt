ghost use Rattle.std.specs.Prelude.{◌≡◌, ◌≤◌, length};
ghost use Rattle.std.specs.List.{prefix_len};
ghost use Rattle.series_id.specs.Names.{is_first_byte, is_later_byte};

// A byte that begins a tag's name.
pub(crate) fn is_first_byte(byte: u8) -> bool
    ensures { result ≡ is_first_byte byte }
{
    byte.is_ascii_alphabetic() || byte == b'_'
}

// A byte of a tag's name.
pub(crate) fn is_later_byte(byte: u8) -> bool
    ensures { result ≡ is_later_byte byte }
{
    byte.is_ascii_alphanumeric() || byte == b'_'
}

// How many bytes at the text's head are those of a name.
pub(crate) fn name_len(text: &[u8]) -> usize
    ensures exact { result ≡ prefix_len is_later_byte text.now }
    ensures within { result ≤ length text.now }
{
    text.iter().take_while(|byte| is_later_byte(**byte)).count()
}
