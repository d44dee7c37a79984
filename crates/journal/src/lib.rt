//! A journal, which a gate's history is written to before anything of it is told: octets that are only
//! appended to a tape, what a crash leaves of them, and the files that they are in. Several threads wait
//! for it before they send: the first writes for all. A `Chronicle` gives the entries and their text.
#![tactic(auto)]

mod base_shelf;
mod chronicle;
mod counting;
mod cutting;
mod distance;
mod fault;
mod file_tape;
mod files_room;
mod first_file;
mod folder;
mod folder_bases;
mod folder_files;
mod folder_names;
mod found_names;
mod group;
mod joined;
mod journal;
mod journaled_sink;
mod last_files;
mod memory_tape;
mod meter;
mod metered_tape;
mod names;
mod pieces;
mod policy;
mod position;
mod recorder;
mod regular;
mod renewal;
mod rotation;
mod shelf;
mod tape;
mod text_read;
mod writer;
mod writing;

pub use crate::base_shelf::{BaseShelf, NoBases};
pub use crate::chronicle::{Chronicle, Rest, Sealer, Spelled};
pub use crate::distance::{BASE_ENTRIES, BASE_FILES, Distance, TEXT_ENTRIES};
pub use crate::fault::{FolderFault, JournalFault};
pub use crate::file_tape::FileTape;
pub use crate::first_file::FirstFile;
pub use crate::folder::Folder;
pub use crate::folder_bases::FolderBases;
pub use crate::group::{FILE_OCTETS, GroupJournal};
pub use crate::journal::Journal;
pub use crate::journaled_sink::{CatchesUp, JournaledSink};
pub use crate::last_files::{FileLine, LastFiles};
pub use crate::memory_tape::MemoryTape;
pub use crate::meter::{JournalCounts, JournalMeter};
pub use crate::metered_tape::MeteredTape;
pub use crate::names::{file_name, log_name};
pub use crate::pieces::PIECE_OCTETS;
pub use crate::policy::SyncPolicy;
pub use crate::position::JournalPosition;
pub use crate::recorder::{CaughtUp, Recorder, Unrecorded};
pub use crate::renewal::Renewal;
pub use crate::shelf::{BegunFile, Shelf};
pub use crate::tape::{Tape, append_all};
