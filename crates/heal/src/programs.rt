//! Programs: read from untrusted bytes or from text, and run on the record of a clash.
//!
//! | task | items | crate |
//! |---|---|---|
//! | read and verify bytes | `read_program`, `Verified`, `ProgramFault` | `verifier` |
//! | read the fault | `CodecFault`, `LengthFault`, `SlotFault`, `VerifyFault`, `Refusal`, `Rule` | `insn_codec`, `verifier` |
//! | convert bytes and code | `decode`, `encode`, `Code`, `Insn`, `MAX_SLOTS` | `insn_codec`, `instruction_set` |
//! | convert text and code | `assemble`, `disassemble`, `LineFault`, `Fault` | `assembler_text` |
//! | run | `run`, `run_in`, `run_written`, `Scratch`, `Ended` | `interpreter` |
//! | make the record that a program reads | `record`, `record_of`, `ClashRecord`, `Facts`, `RECORD_LEN` | `clash_record` |

pub use assembler_text::{Fault, LineFault, assemble, disassemble};
pub use clash_record::{ClashRecord, Facts, RECORD_LEN, record, record_of};
pub use insn_codec::{CodecFault, LengthFault, SlotFault, decode, encode};
pub use instruction_set::{Code, Insn, MAX_SLOTS};
pub use interpreter::{Ended, Scratch, run, run_in, run_written};
pub use verifier::{ProgramFault, Refusal, Rule, Verified, VerifyFault, read_program};
