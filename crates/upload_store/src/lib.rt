//! Keeps uploaded programs: safe code under the digest of its bytes.
#![tactic(auto)]

mod accepted;
mod fault;
mod store;

pub use accepted::Upload;
pub use fault::UploadFault;
pub use store::{MAX_PROGRAMS, UploadStore, Uploaded};
