//! The grammars of names. No call here takes memory.

ghost use Rattle.std.specs.Prelude.{◌≡◌, slice_index};
ghost use Rattle.std.specs.Char.{is_ascii_alphanumeric};
ghost use Rattle.std.specs.List.{list_all};
ghost use Rattle.std.specs.Str.{chars};
ghost use Rattle.net_conf.specs.Names as names;

/// Whether the text can name a network: a letter or digit of ASCII, and then letters, digits, `_`, `.` and `-`
/// (CNI specification 1.1.0, section 1, `name`).
#[tactic(auto, unfolding(crate::specs::Names::is_network_name))]
pub fn is_network_name(text: &str) -> bool
    ensures { result ≡ names.is_network_name text.now }
{
    let bytes = text.as_bytes();
    begins_with_alphanumeric(bytes) && all_name_bytes(bytes)
}

/// Whether the text can be a container's id, which has the grammar of network names (CNI specification 1.1.0,
/// section 2, `CNI_CONTAINERID`).
pub fn is_container_id(text: &str) -> bool
    ensures { result ≡ names.is_container_id text.now }
{
    is_network_name(text)
}

/// Whether the text can name an interface: 1 to 15 bytes, neither `.` nor `..`, without `/`, `:` and white space of
/// Unicode (libcni's `ValidateInterfaceName`).
#[tactic(auto, unfolding(crate::specs::Names::is_interface_name))]
pub fn is_interface_name(text: &str) -> bool
    ensures { result ≡ names.is_interface_name text.now }
{
    is_short(text) && !is_dots(text) && all_interface_chars(text)
}

fn is_name_byte(byte: u8) -> bool
    ensures { result ≡ names.is_name_byte byte }
{
    byte.is_ascii_alphanumeric() || byte == b'_' || byte == b'.' || byte == b'-'
}

fn begins_with_alphanumeric(bytes: &[u8]) -> bool
    ensures { result ≡ is_ascii_alphanumeric (slice_index bytes.now 0) }
{
    match bytes {
        [first, ..] => first.is_ascii_alphanumeric(),
        [] => false,
    }
}

fn all_name_bytes(bytes: &[u8]) -> bool
    ensures { result ≡ list_all names.is_name_byte bytes.now }
{
    bytes.iter().all(|byte| is_name_byte(*byte))
}

fn is_short(text: &str) -> bool
    ensures { result ≡ names.is_short text.now }
{
    1 <= text.len() && text.len() <= 15
}

fn is_dots(text: &str) -> bool
    ensures { result ≡ names.is_dots text.now }
{
    text == "." || text == ".."
}

fn is_interface_char(c: char) -> bool
    ensures { result ≡ names.is_interface_char c }
{
    c != '/' && c != ':' && !c.is_whitespace()
}

fn all_interface_chars(text: &str) -> bool
    ensures { result ≡ list_all names.is_interface_char (chars text.now) }
{
    text.chars().all(is_interface_char)
}
