//! PSID v2 files: music for the Commodore 64's SID as machine code, with a header that says where to call it.
//!
//! The layer's one contract: `read` answers what the six rules of reading say, a fault or the header, the address and
//! the image; `write` gives the file of the format's table, and reading it gives back what was written.
//! `psid_bytes` is that table, field by field; `psid_read` is the six rules in their order.
//! It stands on `base` for lists of bytes, on `byteorder` for words and on `thiserror` for the texts of faults. The
//! source of the rules is the PSID v2 description. See `docs/psid.md`.
#![tactic(auto)]

/// Facts about the definitions.
pub mod claims;
mod faults;
mod fields;
mod header;
mod reading;
mod writing;

pub use base::{ByteList, NoMemory};
pub use faults::PsidFault;
pub use header::{Header, Psid};
pub use reading::{ADDRESSES, read};
pub use writing::write;
