//! A bag: the permits and the started fetches of one desk, found by number.
//! Used by the keeper of a session, since its clients name permits by numbers.
ghost use Rattle.std.specs.Prelude.{◌≡◌, ◌+◌, ◌<◌, [], false, IfErr, IfNone, IfOk, IfSome, length, OnErr, OnOk, IsOk};
ghost use Rattle.std.specs.List.{All};
ghost use Rattle.std.specs.Option.{option_copied};
ghost use Rattle.permit_bag.specs.Bags.{BagFinishes, BagReturns, BagStarts, Clears, FinishesEach, has_permit, held_in, HoldsSame, IsCleared, IsUrlIn, KeepsBalance, KeepsPermit, LosesPermit, ReturnsEach};
ghost use Rattle.gate_lock.specs.Desks.{out_of};
ghost use Rattle.numbered_store.specs.Stores.{kept_in};

use gate_core::Denial;
use gate_history::{Cause, Reason};
use gate_lock::{Desk, Gate, Permit, Running};
use numbered_store::{Sought, Store};
use path_normal::PageUrl;
use permit_book::{NotOut, PermitNo};
use robots_text::Token;
use std::alloc::{AllocError, Global};
use std::marker::Model;
use std::sync::Wait;

/// The permits and started fetches of one desk, by number. It has no `Drop`: `end` spends it. Dropping one
/// would leave its contents out forever.
#[must_use]
pub struct Bag<G: Gate> {
    desk: u64,
    permits: Store<Permit<G>>,
    // With room for a fetch of each permit.
    runs: Store<Running<G>>,
}

impl<G: Gate> Model for Bag<G> {
    ghost use Rattle.std.specs.Prelude.{◌≡◌, ◌≤◌, ◌-◌, length, min};
    ghost use Rattle.std.specs.List.{All};
    ghost use Rattle.permit_bag.specs.Bags.{BagView};
    ghost use Rattle.numbered_store.specs.Stores.{kept_in};

    ghost Value = { BagView };

    ghost view = { λ bag. record {
      desk = bag.desk;
      permits = kept_in bag.permits;
      runs = kept_in bag.runs;
      room = min bag.permits.room (bag.runs.room - length (kept_in bag.permits));
    } };

    ghost invariant = { λ bag. All (λ p. p.desk ≡ bag.desk) (kept_in bag.permits)
        × All (λ r. r.pass.desk ≡ bag.desk) (kept_in bag.runs)
        × (length (kept_in bag.permits) ≤ bag.runs.room) };
}

struct Any;

impl<T> Sought<T> for Any {
    ghost use Rattle.std.specs.Prelude.{true};

    ghost accepts = { λ _ _. true };

    fn is(&self, _: &T) -> bool {
        true
    }
}

// A permit for this token and URL.
#[derive(Drop)]
struct For<'a> {
    token: &'a Token,
    url: &'a PageUrl,
}

impl<G: Gate> Sought<Permit<G>> for For<'_> {
    ghost use Rattle.std.specs.Prelude.{◌&&◌};
    ghost use Rattle.std.specs.Str.{bytes_eq};

    ghost accepts = { λ sought permit. bytes_eq permit.token sought.token.now
        && bytes_eq permit.url sought.url.now };

    fn is(&self, kept: &Permit<G>) -> bool {
        kept.token() == self.token && kept.url() == self.url
    }
}

impl<G: Gate> Bag<G> {
    /// An empty bag of the desk.
    pub fn new(alloc: Global, desk: &Desk<'_, G>) -> Result<Bag<G>, AllocError>
        ensures { IfOk result
            (λ bag. (bag.desk ≡ desk.now.no) × (bag.permits ≡ []) × (bag.runs ≡ [])) }
    {
        let permits = Store::new(alloc)?;
        match Store::new(alloc) {
            Ok(runs) => Ok(Bag {
                desk: desk.desk_no(),
                permits,
                runs,
            }),
            Err(refused) => {
                permits.destroy_empty();
                Err(refused)
            }
        }
    }

    /// The desk that must spend its permits and fetches.
    pub fn desk_no(&self) -> u64
        ensures { result ≡ self.now.desk }
    {
        self.desk
    }

    /// Makes room, so that the next `keep` succeeds.
    pub fn make_room(&mut self) -> Result<(), AllocError>
        ensures same { HoldsSame self.old self.new }
        ensures desk { self.new.desk ≡ self.old.desk }
        ensures ok { OnOk result (0 < self.new.room) }
        ensures succeeds { 0 < self.old.room → IsOk result }
    {
        let permits = self.permits.first_count() + self.permits.twins().len();
        self.permits.make_room(1)?;
        self.runs.make_room(permits + 1)
    }

    /// Keeps a permit of the bag's desk, or hands it back if memory runs out.
    pub fn keep(&mut self, permit: Permit<G>) -> Result<(), (Permit<G>, AllocError)>
        requires { permit.desk ≡ self.old.desk }
        ensures ok { OnOk result (KeepsPermit self.old permit self.new) }
        ensures desk { self.new.desk ≡ self.old.desk }
        ensures err { OnErr result (HoldsSame self.old self.new) }
        ensures handed_back { IfErr result (λ both. both.0 ≡ permit) }
        ensures succeeds { 0 < self.old.room → IsOk result }
    {
        if self.make_room().is_err() {
            return Err((permit, AllocError));
        }
        self.permits.put(permit);
        Ok(())
    }

    /// Takes out a permit of this number.
    pub fn take(&mut self, number: PermitNo) -> Option<Permit<G>>
        ensures some { IfSome result (λ p. (p.number ≡ number) × LosesPermit self.old p self.new) }
        ensures own { IfSome result (λ p. p.desk ≡ self.old.desk) }
        ensures count { IfSome result (λ _. held_in self.new + 1 ≡ held_in self.old) }
        ensures desk { self.new.desk ≡ self.old.desk }
        ensures none { IfNone result ((has_permit self.old number ≡ false)
            × HoldsSame self.old self.new) }
    {
        let Some(spot) = self.permits.find(number.number(), &Any) else {
            return None;
        };
        Some(self.permits.remove(spot))
    }

    /// The URL of a permit of this number, if the bag has one.
    pub fn url_of(&self, number: PermitNo) -> Option<&PageUrl>
        ensures { IsUrlIn self.now number (option_copied result) }
    {
        let Some(spot) = self.permits.find(number.number(), &Any) else {
            return None;
        };
        match self.permits.at(spot) {
            Some(permit) => Some(permit.url()),
            None => None,
        }
    }

    /// Starts the fetch of the bag's permit of this number, token and URL, as `Desk::start` does; a fetch
    /// that may be made stays in the bag. `Spent` if it has no such permit. Takes no memory.
    pub fn start<R: Wait>(
        &mut self,
        rt: &R,
        number: PermitNo,
        token: &Token,
        url: PageUrl,
        desk: &mut Desk<'_, G>,
        moment: u64,
    ) -> Result<Reason, Denial>
        requires { desk.old.no ≡ self.old.desk }
        ensures step { BagStarts self.old desk.old number token.now url
            moment result self.new desk.new }
        ensures no { desk.new.no ≡ desk.old.no }
        ensures desk { self.new.desk ≡ self.old.desk }
        ensures out { KeepsBalance self.old desk.old self.new desk.new }
    {
        let sought = For { token, url: &url };
        let Some(spot) = self.permits.find(number.number(), &sought) else {
            return Err(Denial {
                url,
                cause: Cause::Spent,
            });
        };
        let permit = self.permits.remove(spot);
        match desk.start(rt, permit, moment) {
            Ok(run) => {
                let reason = run.reason();
                self.runs.put(run);
                Ok(reason)
            }
            Err(denial) => Err(denial),
        }
    }

    /// Gives back a permit of this number. Takes no memory.
    pub fn back<R: Wait>(
        &mut self,
        rt: &R,
        number: PermitNo,
        desk: &mut Desk<'_, G>,
    ) -> Result<(), NotOut>
        requires { desk.old.no ≡ self.old.desk }
        ensures step { BagReturns self.old desk.old number result self.new desk.new }
        ensures no { desk.new.no ≡ desk.old.no }
        ensures desk { self.new.desk ≡ self.old.desk }
        ensures out { KeepsBalance self.old desk.old self.new desk.new }
    {
        let Some(spot) = self.permits.find(number.number(), &Any) else {
            return Err(NotOut);
        };
        let permit = self.permits.remove(spot);
        desk.back(rt, permit);
        Ok(())
    }

    /// Ends a fetch of this number, made or not. Takes no memory.
    pub fn finish<R: Wait>(
        &mut self,
        rt: &R,
        number: PermitNo,
        desk: &mut Desk<'_, G>,
    ) -> Result<(), NotOut>
        requires { desk.old.no ≡ self.old.desk }
        ensures step { BagFinishes self.old desk.old number result self.new desk.new }
        ensures no { desk.new.no ≡ desk.old.no }
        ensures desk { self.new.desk ≡ self.old.desk }
        ensures out { KeepsBalance self.old desk.old self.new desk.new }
    {
        let Some(spot) = self.runs.find(number.number(), &Any) else {
            return Err(NotOut);
        };
        let run = self.runs.remove(spot);
        desk.finish(rt, run.spend());
        Ok(())
    }

    /// Gives back every permit and ends every fetch. Takes no memory.
    pub fn clear<R: Wait>(&mut self, rt: &R, desk: &mut Desk<'_, G>)
        requires { desk.old.no ≡ self.old.desk }
        ensures step { Clears self.old desk.old desk.new }
        ensures empty { IsCleared self.old self.new }
        ensures desk { self.new.desk ≡ self.old.desk }
        ensures no { desk.new.no ≡ desk.old.no }
        ensures out { out_of desk.new + held_in self.old ≡ out_of desk.old }
    {
        return_each(rt, &mut self.permits, desk);
        finish_each(rt, &mut self.runs, desk);
    }

    /// Clears and spends the bag. Takes no memory.
    pub fn end<R: Wait>(self, rt: &R, desk: &mut Desk<'_, G>)
        requires { desk.old.no ≡ self.desk }
        ensures step { Clears self desk.old desk.new }
        ensures no { desk.new.no ≡ desk.old.no }
        ensures out { out_of desk.new + held_in self ≡ out_of desk.old }
    {
        let Bag {
            desk: _,
            mut permits,
            mut runs,
        } = self;
        return_each(rt, &mut permits, desk);
        finish_each(rt, &mut runs, desk);
        permits.destroy_empty();
        runs.destroy_empty();
    }
}

fn return_each<G: Gate, R: Wait>(rt: &R, permits: &mut Store<Permit<G>>, desk: &mut Desk<'_, G>)
    requires { All (λ p. p.desk ≡ desk.old.no) (kept_in permits.old) }
    ensures step { ReturnsEach desk.old (kept_in permits.old) desk.new }
    ensures empty { kept_in permits.new ≡ [] }
    ensures no { desk.new.no ≡ desk.old.no }
    ensures out { out_of desk.new + length (kept_in permits.old) ≡ out_of desk.old }
{
    while let Some(permit) = permits.pop() {
        desk.back(rt, permit);
    }
}

fn finish_each<G: Gate, R: Wait>(rt: &R, runs: &mut Store<Running<G>>, desk: &mut Desk<'_, G>)
    requires { All (λ r. r.pass.desk ≡ desk.old.no) (kept_in runs.old) }
    ensures step { FinishesEach desk.old (kept_in runs.old) desk.new }
    ensures empty { kept_in runs.new ≡ [] }
    ensures no { desk.new.no ≡ desk.old.no }
    ensures out { out_of desk.new + length (kept_in runs.old) ≡ out_of desk.old }
{
    while let Some(run) = runs.pop() {
        desk.finish(rt, run.spend());
    }
}
