//! Rows over journals in memory, and over folders of files.

mod crashes;
mod files;
