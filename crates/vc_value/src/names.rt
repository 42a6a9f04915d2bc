//! How names and the names of sessions are spelled.

ghost use Rattle.std.specs.Prelude.{◌≡◌, length};
ghost use Rattle.std.specs.List.{list_all};
ghost use Rattle.vc_value.specs.Names as spelled;

/// Whether a name may begin with the byte: a letter or `_`.
pub fn begins_name(byte: u8) -> bool
    ensures { result ≡ spelled.begins_name byte }
{
    byte.is_ascii_alphabetic() || byte == b'_'
}

/// Whether a name may go on with the byte: a letter, a digit or `_`.
pub fn is_name_byte(byte: u8) -> bool
    ensures { result ≡ spelled.is_name_byte byte }
{
    byte.is_ascii_alphanumeric() || byte == b'_'
}

fn are_name_bytes(bytes: &[u8]) -> bool
    ensures { result ≡ list_all spelled.is_name_byte bytes.now }
{
    bytes.iter().all(|byte| is_name_byte(*byte))
}

fn ends_name(bytes: &[u8]) -> bool
    ensures { result ≡ spelled.ends_name bytes.now }
{
    bytes.len() < 30 && are_name_bytes(bytes)
}

/// Whether the bytes are a name: a letter or `_`, then letters, digits and `_`, 1 to 30 in all.
pub fn is_name(bytes: &[u8]) -> bool
    ensures { result ≡ spelled.is_name bytes.now }
{
    match bytes {
        [first, more @ ..] => begins_name(*first) && ends_name(more),
        [] => false,
    }
}

fn is_session_byte(byte: u8) -> bool
    ensures { result ≡ spelled.is_session_byte byte }
{
    is_name_byte(byte) || byte == b'-'
}

fn are_session_bytes(bytes: &[u8]) -> bool
    ensures { result ≡ list_all spelled.is_session_byte bytes.now }
{
    bytes.iter().all(|byte| is_session_byte(*byte))
}

fn is_session_length(count: usize) -> bool
    ensures { result ≡ spelled.is_session_length count }
{
    count > 0 && count <= 40
}

/// Whether the bytes are the name of a session: 1 to 40 letters, digits, `_` and `-`.
pub fn is_session_name(bytes: &[u8]) -> bool
    ensures { result ≡ spelled.is_session_name bytes.now }
{
    is_session_length(bytes.len()) && are_session_bytes(bytes)
}
