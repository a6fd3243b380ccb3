//! Real folders, over whatever makes the calls of a file system: the regular files below a folder that others write,
//! and a folder of this program's own whose files outlast a crash. Nothing here tells what a disk holds; the devices
//! above it count what fails.
#![tactic(auto)]

mod faults;
mod file_system;
mod host;
mod kept_folder;
mod names;
mod open_files;
mod read_folder;
mod root;
mod transfer;
mod walk;

pub use faults::FolderFault;
pub use file_system::{Access, FileSystem, Node, NodeKind};
pub use kept_folder::KeptFolder;
pub use names::is_name;
pub use read_folder::ReadFolder;
pub use transfer::{read_full, read_whole, write_full};
