//! The files of a journal that a start reads: which they are, their text, and whether their names are those
//! of the entries before them.

use journal::{Distance, Folder, LastFiles};
use std::alloc::Global;
use std::fs;
use std::io::Read;
use std::test::Fail;

// What a start finds.
struct Row {
    name: &'static str,
    // The names after the folder's, in any order, and the texts.
    files: &'static [(&'static str, &'static str)],
    // How many entries were recovered.
    entries: u64,
    text: &'static str,
    misplaced: Option<&'static str>,
    distance: Distance,
}

const ROWS: &[Row] = &[
    Row {
        name: "the first file alone",
        files: &[("00000000000000000000", "V 2\na\n")],
        entries: 1,
        text: "V 2\na\n",
        misplaced: None,
        distance: Distance {
            entries: 1,
            files: 0,
            octets: 0,
            base: 6,
        },
    },
    Row {
        name: "logs behind the first file",
        files: &[
            ("00000000000000000003.log", "d\n"),
            ("00000000000000000001.log", "b\nc\n"),
            ("00000000000000000000", "V 2\na\n"),
        ],
        entries: 4,
        text: "V 2\na\nb\nc\nd\n",
        misplaced: None,
        distance: Distance {
            entries: 4,
            files: 2,
            octets: 6,
            base: 6,
        },
    },
    Row {
        name: "from the last base but one",
        files: &[
            ("00000000000000000000", "V 2\n"),
            ("00000000000000000000.log", "a\n"),
            ("00000000000000000001", "V 3\nT 1 E\nE\n"),
            ("00000000000000000001.log", "b\nE\n"),
            ("00000000000000000003", "V 3\nT 3\nE\n"),
            ("00000000000000000003.log", "d\n"),
        ],
        entries: 4,
        text: "V 3\nT 1 E\nE\nb\nE\nV 3\nT 3\nE\nd\n",
        misplaced: None,
        distance: Distance {
            entries: 1,
            files: 1,
            octets: 2,
            base: 10,
        },
    },
    Row {
        name: "files with a base and entries, and a log",
        files: &[
            ("00000000000000000000", "V 2\na\n"),
            ("00000000000000000001", "V 3\nT 1\nE\nb\nc\n"),
            ("00000000000000000003.log", "d\n"),
        ],
        entries: 4,
        text: "V 2\na\nV 3\nT 1\nE\nb\nc\nd\n",
        misplaced: None,
        distance: Distance {
            entries: 3,
            files: 1,
            octets: 2,
            base: 14,
        },
    },
    Row {
        name: "a log is missing",
        files: &[
            ("00000000000000000000", "V 2\n"),
            ("00000000000000000000.log", "a\n"),
            ("00000000000000000002.log", "c\n"),
        ],
        entries: 2,
        text: "V 2\na\nc\n",
        misplaced: Some("00000000000000000002.log"),
        distance: Distance {
            entries: 2,
            files: 2,
            octets: 4,
            base: 4,
        },
    },
    Row {
        name: "the log behind a base is missing",
        files: &[
            ("00000000000000000001", "V 3\nT 1\nE\n"),
            ("00000000000000000002.log", "c\n"),
        ],
        entries: 2,
        text: "V 3\nT 1\nE\nc\n",
        misplaced: Some("00000000000000000002.log"),
        distance: Distance {
            entries: 1,
            files: 1,
            octets: 2,
            base: 10,
        },
    },
    Row {
        name: "more entries than the last log has by its name",
        files: &[
            ("00000000000000000000", "V 2\n"),
            ("00000000000000000000.log", "a\n"),
        ],
        entries: 2,
        text: "V 2\na\n",
        misplaced: Some("00000000000000000000.log"),
        distance: Distance {
            entries: 2,
            files: 1,
            octets: 2,
            base: 4,
        },
    },
    Row {
        name: "a log without entries at the end",
        files: &[
            ("00000000000000000000", "V 2\na\n"),
            ("00000000000000000001.log", ""),
        ],
        entries: 1,
        text: "V 2\na\n",
        misplaced: None,
        distance: Distance {
            entries: 1,
            files: 0,
            octets: 0,
            base: 6,
        },
    },
];

#[test]
fn files_are_read_in_order(rt: HostRuntime) -> Result<(), Fail> {
    for row in ROWS {
        if !is_right(&rt, row)? {
            return Err(Fail::new(format_args!("{}", row.name)));
        }
    }
    Ok(())
}

// Whether a start finds what the row says.
fn is_right(rt: &HostRuntime, row: &Row) -> Result<bool, Fail> {
    let Some(mut files) = files_of(rt, row)? else {
        return Ok(false);
    };
    let mut text = Vec::new(rt.alloc());
    files.read_to_end(&mut text)?;
    Ok(
        text.as_slice() == row.text.as_bytes()
            && files.distance(row.entries) == row.distance
            && names_the_same(&files, row)?,
    )
}

fn names_the_same(files: &LastFiles<HostRuntime>, row: &Row) -> Result<bool, Fail> {
    let misplaced = files.first_misplaced(Some(row.entries))?;
    Ok(match (misplaced, row.misplaced) {
        (Some(path), Some(name)) => path.ends_with(name),
        (None, None) => true,
        _ => false,
    })
}

// A folder with the row's files, as a start sees it.
fn files_of(rt: &HostRuntime, row: &Row) -> Result<Option<LastFiles<HostRuntime>>, Fail> {
    let Ok(folder) = Folder::open(*rt, row.name) else {
        return Ok(None);
    };
    for (name, text) in row.files {
        let path = path_of(rt.alloc(), row.name, name)?;
        fs::write(rt, path.as_str(), *text)?;
    }
    drop(folder);
    let Ok(folder) = Folder::open(*rt, row.name) else {
        return Ok(None);
    };
    match folder.last_files() {
        Ok(files) => Ok(files),
        Err(_) => Ok(None),
    }
}

fn path_of(alloc: Global, folder: &str, name: &str) -> Result<String, Fail> {
    Ok(format!(in alloc; "{folder}/{name}")?)
}
