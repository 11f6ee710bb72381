ghost use Rattle.std.specs.Prelude.{◌≡◌, ◌||◌, ◌==◌};
ghost use Rattle.std.specs.List.{list_all};
ghost use Rattle.m3_model.specs.Names.{is_letter, is_digit, is_name_byte, is_name};
ghost use Rattle.m3_model.specs.Tags.{is_tag_name};

use m3_model::limits::MOST_NAME_BYTES;

fn is_name_byte(byte: u8) -> bool
    ensures { result ≡ is_name_byte byte }
{
    byte.is_ascii_alphanumeric() || byte == b'_' || byte == b'-'
}

fn are_name_bytes(bytes: &[u8]) -> bool
    ensures { result ≡ list_all is_name_byte bytes.now }
{
    bytes.iter().all(|&byte| is_name_byte(byte))
}

/// Whether it is the name of a node, a group or a namespace.
pub fn is_name(text: &str) -> bool
    ensures { result ≡ is_name text.now }
{
    (1..=MOST_NAME_BYTES).contains(&text.len()) && are_name_bytes(text.as_bytes())
}

fn begins_tag_name(byte: u8) -> bool
    ensures { result ≡ (is_letter byte || byte == 95) }
{
    byte.is_ascii_alphabetic() || byte == b'_'
}

fn is_tag_name_byte(byte: u8) -> bool
    ensures { result ≡ ((is_letter byte || is_digit byte) || byte == 95) }
{
    byte.is_ascii_alphanumeric() || byte == b'_'
}

fn are_tag_name_bytes(bytes: &[u8]) -> bool
    ensures { result ≡ list_all (λ byte. (is_letter byte || is_digit byte) || byte == 95) bytes.now }
{
    bytes.iter().all(|&byte| is_tag_name_byte(byte))
}

/// Whether it is the name of a tag.
pub fn is_tag_name(text: &str) -> bool
    ensures { result ≡ is_tag_name text.now }
{
    match text.as_bytes() {
        [first, others @ ..] => begins_tag_name(*first) && are_tag_name_bytes(others),
        [] => false,
    }
}
