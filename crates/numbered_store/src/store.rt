//! Values, each found by its number without a linear search.
//! Memory is taken only where room is made for more.
ghost use Rattle.std.specs.Prelude.{◌≡◌, ◌+◌, ◌^◌, ◌<◌, ◌≤◌, ◌++◌, ◌∷◌, [], false, IfNone, IfOk, IfSome, IsOk, length, OnOk, slice_get, Some, true};
ghost use Rattle.std.specs.List.{list_any};
ghost use Rattle.std.specs.List.Sorted.{IsPermutation};
ghost use Rattle.std.specs.Option.{IsSome, option_copied, option_to_list};
ghost use Rattle.numbered_store.specs.Stores.{is_sought, kept_at, kept_in};

use indexmap::IndexMap;
use std::alloc::{AllocError, Global};
use std::marker::Model;

/// A value with a number.
pub trait Numbered {
    ghost use Rattle.std.specs.Prelude.{ℕ};

    /// The number.
    ghost named: { Self → ℕ };

    /// The number.
    fn numbered(&self) -> u64
        ensures { result ≡ named self.now };
}

/// A test for the value sought.
pub trait Sought<T> {
    ghost use Rattle.std.specs.Prelude.{Bool};

    /// The test.
    ghost accepts: { Self → T → Bool };

    /// Whether this may be the value sought.
    fn is(&self, kept: &T) -> bool
        ensures { result ≡ accepts self.now kept.now };
}

/// The place of a value, until something is put in or taken out.
#[derive(Clone, Copy)]
pub enum Spot {
    /// Among the first of each number.
    First(usize),
    /// Among the others.
    Twin(usize),
}

/// The values. Where no number is used twice there are no twins; but the type does not know that.
pub struct Store<T: Numbered> {
    first: IndexMap<u64, T>,
    // Values whose number is already in `first`.
    twins: Vec<T>,
}

impl<T: Numbered> Model for Store<T> {
    ghost use Rattle.std.specs.Prelude.{◌≡◌, ◌-◌, length, min, vec_capacity};
    ghost use Rattle.std.specs.List.{All};
    ghost use Rattle.indexmap.specs.IndexMap.{spare, values};
    ghost use Rattle.numbered_store.specs.Stores.{StoreView};

    ghost Value = { StoreView T };

    ghost view = { λ store. record {
      first = values store.first;
      twins = store.twins.items;
      room = min (spare store.first) (vec_capacity store.twins - length store.twins.items);
    } };

    ghost invariant = { λ store. All (λ e. T.named e.1 ≡ e.0) store.first.entries };
}

impl<T: Numbered> Store<T> {
    /// A store of nothing.
    pub fn new(alloc: Global) -> Result<Store<T>, AllocError>
        ensures { IfOk result (λ store. kept_in store ≡ []) }
    {
        Ok(Store {
            first: IndexMap::with_capacity(alloc, 1)?,
            twins: Vec::new(alloc),
        })
    }

    /// How many numbers its values have.
    pub fn first_count(&self) -> usize
        ensures count { result ≡ length self.now.first }
        ensures bound { result < 2 ^ 63 }
    {
        self.first.len()
    }

    /// The values whose number another one has.
    pub fn twins(&self) -> &[T]
        ensures { result.now ≡ self.now.twins }
    {
        self.twins.as_slice()
    }

    /// Makes room for so many more.
    pub fn make_room(&mut self, more: usize) -> Result<(), AllocError>
        ensures first { self.new.first ≡ self.old.first }
        ensures twins { self.new.twins ≡ self.old.twins }
        ensures room { self.old.room ≤ self.new.room }
        ensures ok { OnOk result (more ≤ self.new.room) }
        ensures succeeds { more ≤ self.old.room → IsOk result }
    {
        self.first.reserve(more)?;
        self.twins.reserve(more)
    }

    /// The place of the value sought.
    pub fn find<S: Sought<T>>(&self, number: u64, sought: &S) -> Option<Spot>
        ensures some { IfSome result
            (λ spot. IfSome (kept_at self.now spot)
            (λ kept. is_sought T.named (S.accepts sought.now) number kept ≡ true)) }
        ensures there { IfSome result (λ spot. IsSome (kept_at self.now spot)) }
        ensures none { IfNone result (list_any (is_sought T.named (S.accepts sought.now) number)
            (kept_in self.now) ≡ false) }
    {
        let _unique = self.first.len();
        let Some((place, _, kept)) = self.first.get_full(&number) else {
            return self.find_twin(number, sought);
        };
        if sought.is(kept) {
            return Some(Spot::First(place));
        }
        self.find_twin(number, sought)
    }

    fn find_twin<S: Sought<T>>(&self, number: u64, sought: &S) -> Option<Spot>
        ensures some { IfSome result
            (λ spot. IfSome (kept_at self.now spot)
            (λ kept. is_sought T.named (S.accepts sought.now) number kept ≡ true)) }
        ensures there { IfSome result (λ spot. IsSome (kept_at self.now spot)) }
        ensures none { IfNone result (list_any (is_sought T.named (S.accepts sought.now) number)
            self.now.twins ≡ false) }
    {
        let place = find_among(self.twins.as_slice(), number, sought)?;
        Some(Spot::Twin(place))
    }

    /// The value at a place.
    pub fn at(&self, spot: Spot) -> Option<&T>
        ensures { option_copied result ≡ kept_at self.now spot }
    {
        match spot {
            Spot::First(place) => match self.first.get_index(place) {
                Some((_, kept)) => Some(kept),
                None => None,
            },
            Spot::Twin(place) => self.twins.get(place),
        }
    }

    /// Takes out the value at a place.
    pub fn remove(&mut self, spot: Spot) -> T
        requires { IsSome (kept_at self.old spot) }
        ensures taken { kept_at self.old spot ≡ Some result }
        ensures left { IsPermutation (kept_in self.old) (result ∷ kept_in self.new) }
        ensures room { self.old.room ≤ self.new.room }
    {
        match spot {
            Spot::First(place) => match self.first.swap_remove_index(place) {
                Some((_, kept)) => kept,
                None => unreachable!(),
            },
            Spot::Twin(place) => self.twins.swap_remove(place),
        }
    }

    /// Puts a value in.
    pub fn put(&mut self, kept: T)
        requires { 0 < self.old.room }
        ensures kept { IsPermutation (kept ∷ kept_in self.old) (kept_in self.new) }
        ensures room { self.old.room ≤ self.new.room + 1 }
    {
        let number = kept.numbered();
        if self.first.contains_key(&number) {
            self.twins.push_reserved(kept);
            return;
        }
        match self.first.insert(number, kept) {
            Ok(None) => {}
            Ok(Some(_twin)) => unreachable!(),
            Err(_refused) => unreachable!(),
        }
    }

    /// Takes out a value.
    pub fn pop(&mut self) -> Option<T>
        ensures kept { kept_in self.old ≡ kept_in self.new ++ option_to_list result }
        ensures none { IfNone result (kept_in self.new ≡ []) }
        ensures room { self.old.room ≤ self.new.room }
    {
        if let Some(kept) = self.twins.pop() {
            return Some(kept);
        }
        let (_, kept) = self.first.pop()?;
        Some(kept)
    }

    /// Ends a store of nothing.
    pub fn destroy_empty(self)
        requires { kept_in self ≡ [] }
    {
        let Store { first, twins } = self;
        first.destroy_empty();
        let _none = twins.as_slice();
        twins.destroy_empty();
    }
}

fn find_among<T: Numbered, S: Sought<T>>(all: &[T], number: u64, sought: &S) -> Option<usize>
    ensures some { IfSome result
        (λ place. IfSome (slice_get all.now place)
        (λ kept. is_sought T.named (S.accepts sought.now) number kept ≡ true)) }
    ensures there { IfSome result (λ place. IsSome (slice_get all.now place)) }
    ensures none { IfNone result (list_any (is_sought T.named (S.accepts sought.now) number)
        all.now ≡ false) }
{
    let mut rest = all;
    let mut place = 0;
    while let [kept, after @ ..] = rest {
        if kept.numbered() == number && sought.is(kept) {
            return Some(place);
        }
        rest = after;
        place += 1;
    }
    None
}
