// Names.
ghost use Rattle.std.specs.Prelude.{◌≡◌, IfSome, is_some};
ghost use Rattle.std.specs.List.{list_all};
ghost use Rattle.obs_text.specs.Names.{is_name, is_name_byte};

/// The lowest byte that may stand in a name: the blank.
const BLANK: u8 = 0x20;

/// The one control byte that isn't below the blank.
const DELETE: u8 = 0x7F;

/// The most bytes of a name.
const LONGEST: usize = 64;

// No control byte among them.
fn has_name_bytes(bytes: &[u8]) -> bool
    ensures all { result ≡ list_all is_name_byte bytes.now }
{
    bytes.iter().all(|byte| *byte >= BLANK && *byte != DELETE)
}

/// The bytes themselves, where they are a name: 1 to 64 bytes, none of them a control byte. Names
/// need not be UTF-8.
pub fn name_of(bytes: &[u8]) -> Option<&[u8]>
    ensures name { is_some result ≡ is_name bytes.now }
    ensures same { IfSome result (λ name. name.now ≡ bytes.now) }
{
    if !bytes.is_empty() && bytes.len() <= LONGEST && has_name_bytes(bytes) {
        Some(bytes)
    } else {
        None
    }
}
