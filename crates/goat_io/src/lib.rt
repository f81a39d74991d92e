//! The program's two ways out: a folder of named files, and a sink for printed lines.
//!
//! The one contract above this layer: a read gives at most as many bytes as were asked for, and the whole file
//! where the folder tells its files; a write or a put is whole, or a prefix of its bytes with a count of faults
//! that rose; other files stay. `MemFolder` and `MemSink` keep all in memory, tell their content and fail at the
//! calls that a test lists. `DiskFolder` and `StdSink` are the trusted edges over files and standard output:
//! they count their faults and tell nothing of content.
//!
//! It stands on `base`, for the refusal when memory runs out.
#![tactic(auto)]

mod count;
mod disk_folder;
mod fault;
mod folder;
mod folder_counts;
mod listed;
mod mem_files;
mod mem_folder;
mod mem_sink;
mod sink;
mod std_sink;
mod whole_file;

pub use base::NoMemory;
pub use count::Count;
pub use disk_folder::DiskFolder;
pub use fault::{ReadFault, SinkFault, WriteFault};
pub use folder::Folder;
pub use folder_counts::FolderCounts;
pub use mem_folder::MemFolder;
pub use mem_sink::MemSink;
pub use sink::Sink;
pub use std_sink::StdSink;
