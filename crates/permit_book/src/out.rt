//! A slot of the table, and what is outstanding in it.
//! A permit is for one fetch of a URL under a token (RFC 9309, 2.2.1).
ghost use Rattle.std.specs.Prelude.{◌≡◌, true, IfOk};
ghost use Rattle.std.specs.Option.{option_copied};
ghost use Rattle.permit_book.specs.Table.{decided, is_fetch_of, is_free, is_nothing, is_out_for, is_permit_for, is_running_out, is_unspent_out, url_out};

use crate::number::LAST_GENERATION;
use path_normal::PageUrl;
use robots_text::Token;
use std::alloc::AllocError;
use std::mem;

/// One fetch of a URL under a product token. Its copies share their texts, since a history has many.
#[derive(Drop, PartialEq, Eq)]
pub struct Fetch {
    /// The token that may make it.
    pub token: Token,
    /// The URL to fetch.
    pub url: PageUrl,
}

/// What a slot has outstanding.
#[derive(Drop)]
pub enum SlotContent {
    /// None was granted, or the last one has ended.
    Nothing,
    /// A permit that is not used yet.
    Unspent(Fetch),
    /// A fetch that was started and has not ended.
    Running(Fetch),
}

/// A slot of the table.
#[derive(Drop)]
pub struct Slot {
    /// The generation of its last grant, or 0.
    pub last: u64,
    /// What is outstanding under that grant's number.
    pub out: SlotContent,
}

impl Fetch {
    /// The fetch of this URL under this token. Takes no memory: the texts are shared.
    pub fn of(token: &Token, url: &PageUrl) -> Result<Fetch, AllocError>
        ensures { IfOk result (λ fetch. fetch ≡ record { token = token.now; url = url.now }) }
    {
        Ok(Fetch {
            token: token.copy()?,
            url: url.copy()?,
        })
    }

    /// A copy of it. Takes no memory.
    pub fn copy(&self) -> Result<Fetch, AllocError>
        ensures { IfOk result (λ copy. copy ≡ self.now) }
    {
        Fetch::of(&self.token, &self.url)
    }

    /// Whether it has this URL and token.
    pub fn is_of(&self, token: &Token, url: &PageUrl) -> bool
        ensures { result ≡ is_fetch_of token.now url.now self.now }
    {
        self.token == *token && self.url == *url
    }
}

impl SlotContent {
    /// Whether there is no permit.
    pub fn is_nothing(&self) -> bool
        ensures { result ≡ is_nothing self.now }
    {
        matches!(self, SlotContent::Nothing)
    }

    /// Whether it is an unspent permit.
    pub fn is_unspent(&self) -> bool
        ensures { result ≡ is_unspent_out self.now }
    {
        matches!(self, SlotContent::Unspent(_))
    }

    /// Whether it is a running fetch.
    pub fn is_running(&self) -> bool
        ensures { result ≡ is_running_out self.now }
    {
        matches!(self, SlotContent::Running(_))
    }

    /// Whether it is an unspent permit for this token and URL.
    pub fn is_permit_for(&self, token: &Token, url: &PageUrl) -> bool
        ensures { result ≡ is_permit_for token.now url.now self.now }
    {
        match self {
            SlotContent::Unspent(fetch) => fetch.is_of(token, url),
            _ => false,
        }
    }

    /// Whether it is for a page of this authority.
    pub fn is_for(&self, authority: &str) -> bool
        ensures { result ≡ is_out_for authority.now self.now }
    {
        match self {
            SlotContent::Unspent(fetch) | SlotContent::Running(fetch) => fetch.url.authority()
                == authority,
            SlotContent::Nothing => false,
        }
    }

    /// The URL of the outstanding fetch.
    pub fn url(&self) -> Option<&PageUrl>
        ensures { option_copied result ≡ url_out self.now }
    {
        match self {
            SlotContent::Unspent(fetch) | SlotContent::Running(fetch) => Some(&fetch.url),
            SlotContent::Nothing => None,
        }
    }

    pub(crate) fn start(&mut self)
        ensures { self.new ≡ decided true self.old }
    {
        *self = match mem::replace(self, SlotContent::Nothing) {
            SlotContent::Unspent(fetch) => SlotContent::Running(fetch),
            _ => SlotContent::Nothing,
        };
    }
}

impl Slot {
    /// Whether it may take the next permit.
    pub fn is_free(&self) -> bool
        ensures { result ≡ is_free self.now }
    {
        self.out.is_nothing() && self.last < LAST_GENERATION
    }
}
