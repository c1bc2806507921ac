//! Validation and construction of names.
ghost use Rattle.std.specs.Prelude.{◌≡◌, ◌↔◌, IsTrue, IsOk, IfOk};
ghost use Rattle.std.specs.List.{list_all};
ghost use Rattle.clash_record.specs.Name.{is_name, is_visible};

use crate::names::{BadName, NAME_LEN, Name};

impl TryFrom<&[u8]> for Name {
    type Error = BadName;

    ghost try_from_gives = { λ bytes named. (IsOk named ↔ IsTrue (is_name bytes.now)) × IfOk named (λ name. name ≡ bytes.now) };

    fn try_from(bytes: &[u8]) -> Result<Name, BadName> {
        name(bytes)
    }
}

/// Returns the name with these bytes, or `BadName` (44) if they aren't 1 to 32 bytes from 0x21 to 0x7E.
pub fn name(bytes: &[u8]) -> Result<Name, BadName>
    ensures accepted { IsOk result ↔ IsTrue (is_name bytes.now) }
    ensures value { IfOk result (λ name. name ≡ bytes.now) }
{
    if !is_name(bytes) {
        return Err(BadName);
    }
    let mut stored = [0; NAME_LEN];
    stored[..bytes.len()].copy_from_slice(bytes);
    Ok(Name {
        bytes: stored,
        len: bytes.len() as u8,
    })
}

// Checks whether these bytes are a valid name.
fn is_name(bytes: &[u8]) -> bool
    ensures { result ≡ is_name bytes.now }
{
    !bytes.is_empty() && bytes.len() <= NAME_LEN && are_visible(bytes)
}

// Checks whether each byte is from 0x21 to 0x7E.
fn are_visible(bytes: &[u8]) -> bool
    ensures { result ≡ list_all is_visible bytes.now }
{
    bytes.iter().all(|byte| byte.is_ascii_graphic())
}
