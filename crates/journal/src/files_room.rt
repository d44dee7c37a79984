//! How many octets a journal's files have, and how many they may have.
//! `GroupJournal::has_room` tells those who refuse entries.
ghost use Rattle.std.specs.Prelude.{◌≡◌, ◌↔◌, ◌+◌, ◌^◌, ◌-◌, IsTrue, is_some, min};
ghost use Rattle.journal.specs.Rooms.{HasRoom};

/// The octets of all files of a shelf, and the limit that they may reach, if there is one.
#[derive(Drop)]
pub(crate) struct FilesRoom {
    limit: Option<u64>,
    octets: u64,
}

impl FilesRoom {
    /// The files have no octets.
    pub fn new(limit: Option<u64>) -> FilesRoom
        ensures limit { result.limit ≡ limit }
        ensures octets { result.octets ≡ 0 }
    {
        FilesRoom { limit, octets: 0 }
    }

    pub fn is_limited(&self) -> bool
        ensures { result ≡ is_some self.now.limit }
    {
        self.limit.is_some()
    }

    pub fn limit(&self) -> Option<u64>
        ensures { result ≡ self.now.limit }
    {
        self.limit
    }

    /// Whether entries may come.
    pub fn is_left(&self) -> bool
        ensures { IsTrue result ↔ HasRoom self.now }
    {
        match self.limit {
            Some(limit) => self.octets < limit,
            None => true,
        }
    }

    /// The files were found to have so many octets.
    pub fn set(&mut self, octets: u64)
        ensures limit { self.new.limit ≡ self.old.limit }
        ensures octets { self.new.octets ≡ octets }
    {
        self.octets = octets;
    }

    /// So many octets were written.
    pub fn add(&mut self, octets: u64)
        ensures limit { self.new.limit ≡ self.old.limit }
        ensures octets { self.new.octets ≡ min (self.old.octets + octets) (2 ^ 64 - 1) }
    {
        self.octets = self.octets.saturating_add(octets);
    }
}
