//! A front as a service that some requests come to too early.

use crate::door::SiteDoor;
use crate::front::Front;
use crate::metrics::Metrics;
use command_server::NumberedClock;
use http_turns::{Asker, DeferringService};
use keepers::Keeper;

impl<K: Keeper, D: SiteDoor, C: NumberedClock, M: Metrics> DeferringService
    for Front<'_, K, D, C, M> {
    fn set_asker(&mut self, asker: Asker) {
        self.asker = asker;
    }

    fn is_deferred(&self) -> bool {
        self.later
    }

    fn number(&self) -> u64 {
        self.number
    }

    fn answer_octets(&self) -> u64 {
        self.octets
    }
}
