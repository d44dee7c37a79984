//! Many connections served in turns by a few workers. Between its turns a conversation waits in the system's
//! set of sockets, and no thread waits for it. No clause says that a turn comes: that is argued in `EventLoop`.
#![tactic(auto)]

mod conversation;
mod dispatcher;
mod event_loop;
mod exchange;
mod listener;
mod load;
mod moment;
mod place;
mod queues;
mod seat;
mod sizes;
mod turn;

pub use conversation::{Conversation, Wants};
pub use dispatcher::Dispatcher;
pub use event_loop::EventLoop;
pub use listener::LoopListener;
pub use load::Load;
pub use moment::Moment;
pub use place::{LoopPlace, Places};
pub use queues::Clients;
pub use sizes::{MOST_PLACES, MOST_WORKERS, Sizes};
