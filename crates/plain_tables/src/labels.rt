// The forms of labels and of groups' names.
ghost use Rattle.std.specs.Prelude.{◌≡◌, IsTrue, ◌↔◌};
ghost use Rattle.plain_tables.specs.Labels as specs;
ghost use Rattle.plain_tables.specs.Labels.{IsLabel, IsGroupName};

/// Whether a text is a label: 1 to 1,024 bytes, and no control character.
pub fn is_label(text: &str) -> bool
    ensures { IsTrue result ↔ IsLabel text.now }
{
    let bytes = text.as_bytes();
    !bytes.is_empty() && bytes.len() <= 1024 && bytes.iter().all(|byte| *byte >= 32 && *byte != 127)
}

/// Whether a byte may stand in the name of a group.
fn is_name_byte(byte: u8) -> bool
    ensures { result ≡ specs.is_name_byte byte }
{
    byte.is_ascii_alphanumeric() || byte == b'.' || byte == b'_' || byte == b'-'
}

/// Whether a text is the name of a group: 1 to 64 ASCII letters, digits, `.`, `_` and `-`.
pub fn is_group_name(text: &str) -> bool
    ensures { IsTrue result ↔ IsGroupName text.now }
{
    let bytes = text.as_bytes();
    !bytes.is_empty() && bytes.len() <= 64 && bytes.iter().all(|byte| is_name_byte(*byte))
}
