//! Answers to lines.
ghost use Rattle.std.specs.Prelude.{◌≡◌};
ghost use Rattle.device.specs.Sending.{SendsOn};
ghost use Rattle.scripts.specs.Replies.{reply_status, reply_text};
ghost use Rattle.scripts.specs.declared.reply.Reply.TheVariants.{Refused};

use clash_record::{Name, Owner};
use device::{DeviceFault, send_after};
use refusals::{Numbered, NumberedRefusal, refusal_of};
use script_text::{print_code_count, print_owner_line, print_refusal};
use std::io::Write;

/// The answer to a line, except for the names of a side and the outcome of a `heal`.
#[derive(Clone, Copy, Debug)]
pub enum Reply {
    /// Nothing: the line is blank or a comment.
    Silent,
    /// A program was stored under this label, and has this number of instructions.
    Uploaded { label: Name, count: usize },
    /// A name was registered.
    Registered,
    /// A name was unregistered.
    Unregistered,
    /// The owner of a name.
    Owned(Owner),
    /// Nobody owns the name.
    Undefined,
    /// The line is refused.
    Refused(NumberedRefusal),
}

// The number of a refusal when out of memory.
const OUT_OF_MEMORY: u32 = 90;

impl Reply {
    /// The line is refused, for this fault.
    pub fn refused<F: Numbered>(fault: &F) -> Reply
        ensures { result ≡ Refused (record { number = F.number_of fault.now; place = F.place_of fault.now }) }
    {
        Reply::Refused(refusal_of(fault))
    }

    /// Returns the least status of a script with this answer: 3 if memory ran out, 2 at another refusal, else 0.
    pub fn status(&self) -> u8
        ensures { result ≡ reply_status self.now }
    {
        match self {
            Reply::Refused(refusal) if refusal.number == OUT_OF_MEMORY => 3,
            Reply::Refused(_) => 2,
            _ => 0,
        }
    }
}

/// Prints the reply to the line of this number.
pub fn print_reply<W: Write>(
    sent: Result<(), DeviceFault>,
    writer: &mut W,
    line: u64,
    reply: &Reply,
) -> Result<(), DeviceFault>
    ensures { SendsOn sent (W.contents writer.old) (W.contents writer.new) (reply_text line reply.now) result }
{
    match reply {
        Reply::Silent => send_after(sent, writer, b""),
        Reply::Uploaded { label, count } => print_code_count(sent, writer, label.bytes(), *count),
        Reply::Registered => send_after(sent, writer, b"yes\n"),
        Reply::Unregistered => send_after(sent, writer, b"gone\n"),
        Reply::Owned(owner) => print_owner_line(sent, writer, *owner),
        Reply::Undefined => send_after(sent, writer, b"undefined\n"),
        Reply::Refused(refusal) => print_refusal(sent, writer, line, *refusal),
    }
}
