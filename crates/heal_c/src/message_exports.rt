//! Messages.
ghost use Rattle.std.specs.Prelude.{◌≡◌, MatchOption, None, length};
ghost use Rattle.std.specs.Borrow.{sem};
ghost use Rattle.heal_c.specs.Lending.{StaysLent};
ghost use Rattle.c_calls.specs.Answers.{GivesDue, ReadsHandle};
ghost use Rattle.c_calls.specs.Messages.{copy_of};

use crate::message_handle::HealBytes;
use c_calls::{EMPTY_HANDLE, copy};
use std::alloc::Global;

/// Returns the number of bytes.
///
/// Returns 91 for an empty handle.
#[unsafe(no_mangle)]
pub extern "C" fn heal_bytes_len(bytes: &mut HealBytes, len: &mut usize) -> u32
    ensures { ReadsHandle bytes.old.message bytes.new.message (λ held n. (n ≡ 0) × (len.new ≡ length held))
        (len.new ≡ len.old) result }
{
    match bytes.held() {
        Some(held) => {
            *len = held.bytes().len();
            0
        }
        None => EMPTY_HANDLE,
    }
}

/// Where bytes are that a call lends, and how many. `reserved` is written as 0.
#[derive(Clone, Copy, Debug)]
#[repr(C)]
pub struct HealSpan<'a> {
    /// The bytes.
    pub bytes: &'a [u8],
    pub reserved: u64,
}

/// Lends the message: its bytes stay where they are until the message is freed or the handle holds another.
///
/// Returns 91 for an empty handle.
#[unsafe(no_mangle)]
pub extern "C" fn heal_bytes_lend<'a>(bytes: &'a mut HealBytes, span: &mut HealSpan<'a>) -> u32
    ensures* stays { sem 𝓛 (StaysLent bytes.entry) }
    ensures lent { MatchOption bytes.old.message ((result ≡ 91) × (span.new ≡ span.old))
        (λ held. (result ≡ 0) × (span.new.bytes.now ≡ held) × (span.new.reserved ≡ 0)) }
{
    point(bytes.lent(), span)
}

// Writes where these bytes are and returns 0, or returns 91.
fn point<'a>(bytes: Option<&'a [u8]>, span: &mut HealSpan<'a>) -> u32
    ensures { MatchOption bytes.entry ((result ≡ 91) × (span.new ≡ span.old))
        (λ lent. (result ≡ 0) × (span.new.bytes.now ≡ lent.now) × (span.new.reserved ≡ 0)) }
{
    match bytes {
        Some(lent) => {
            span.bytes = lent;
            span.reserved = 0;
            0
        }
        None => EMPTY_HANDLE,
    }
}

/// Copies the message.
///
/// Returns 91 for an empty handle, and 93 unless `to` has as many bytes as the message.
#[unsafe(no_mangle)]
pub extern "C" fn heal_bytes_copy(bytes: &mut HealBytes, to: &mut [u8]) -> u32
    ensures { ReadsHandle bytes.old.message bytes.new.message
        (λ held. GivesDue (copy_of held (length to.old)) (λ copy. to.new ≡ copy) (to.new ≡ to.old)) (to.new ≡ to.old) result }
{
    match bytes.held() {
        Some(held) => copy(held.bytes(), to),
        None => EMPTY_HANDLE,
    }
}

/// Frees the message, if the handle holds one, and leaves the handle empty.
#[unsafe(no_mangle)]
pub extern "C" fn heal_bytes_free(alloc: Global, bytes: &mut HealBytes)
    ensures { bytes.new.message ≡ None }
{
    bytes.take(alloc);
}
