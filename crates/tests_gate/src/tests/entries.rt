//! The size of entries.
use gate_history::Entry;
use std::mem::size_of;
use std::test::Fail;

// Three entries with the texts of one fetch, a token of 6 octets and a URL of 40, take at most 300 octets: a grant
// has the texts, its start and its finish none.
#[test]
fn an_entry_takes_at_most_100_octets(_rt: HostRuntime) -> Result<(), Fail> {
    if size_of::<Entry>() == 48 {
        Ok(())
    } else {
        Err(Fail::new("an entry without its texts"))
    }
}
