//! The draft of a permit: a free slot, found but not yet taken.
//! Used by `Book::ask`, which commits it once the grant can't be refused.
ghost use Rattle.std.specs.Prelude.{◌≡◌, IfOk, MatchOption, OnErr};
ghost use Rattle.std.specs.Borrow.{sem, RestsIfErr};
ghost use Rattle.permit_book.specs.declared.out.SlotContent.TheVariants.{Unspent};
ghost use Rattle.permit_book.specs.contracts.permits.Permits.{the_row};
ghost use Rattle.permit_book.specs.Next.{IsNext, NoneFree};
ghost use Rattle.permit_book.specs.Table.{with_out};

use crate::number::PermitNo;
use crate::out::{Fetch, Slot, SlotContent};
use crate::permits::Permits;
use crate::refusal::PermitsFull;
use path_normal::PageUrl;
use robots_text::Token;

/// The next permit, not granted yet. Only a commit changes the table: a draft can be dropped.
#[derive(Drop)]
pub struct Draft<'a> {
    permits: &'a mut Permits,
    number: PermitNo,
}

impl Permits {
    /// Drafts the next permit, in the lowest free slot, with the generation after its last.
    pub fn draft(&mut self) -> Result<Draft<'_>, PermitsFull>
        ensures* full { sem 𝓛 (RestsIfErr the_row self.entry
            (λ draft. draft.permits.ghost_name) result (λ last. last ≡ self.old)) }
        ensures same_table { IfOk result (λ draft.
            draft.permits.ghost_name ≡ self.entry.ghost_name) }
        ensures unchanged { IfOk result (λ draft. draft.permits.now ≡ self.old) }
        ensures next { IfOk result (λ draft. IsNext self.old draft.number) }
        ensures none_free { OnErr result (NoneFree self.old) }
    {
        match self.next_number() {
            Some(number) => Ok(Draft {
                permits: self,
                number,
            }),
            None => Err(PermitsFull),
        }
    }

    fn next_number(&self) -> Option<PermitNo>
        ensures { MatchOption result (NoneFree self.now) (IsNext self.now) }
    {
        let slot = self.free.lowest()?;
        let last = self.slots[slot as usize].last;
        let generation = if last == 0 {
            self.first_generation
        } else {
            last + 1
        };
        Some(PermitNo::granted_in(slot, generation))
    }

    fn grant(&mut self, number: PermitNo, fetch: Fetch)
        requires { IsNext self.old number }
        ensures { self.new ≡ with_out self.old number (Unspent fetch) }
    {
        self.free.remove(number.slot());
        self.slots[number.slot() as usize] = Slot {
            last: number.generation(),
            out: SlotContent::Unspent(fetch),
        };
        self.unspent += 1;
    }
}

impl Draft<'_> {
    /// The permit's future number.
    pub fn number(&self) -> PermitNo
        ensures { result ≡ self.now.number }
    {
        self.number
    }

    /// Grants the permit for one fetch of a URL under a token.
    pub fn commit(self, token: Token, url: PageUrl) -> PermitNo
        requires { IsNext self.permits.now self.number }
        ensures number { result ≡ self.entry.number }
        ensures granted { self.exit.0.now ≡ with_out self.entry.permits.now self.entry.number
            (Unspent (record { token = token; url = url })) }
    {
        let Draft { permits, number } = self;
        permits.grant(number, Fetch { token, url });
        number
    }
}
