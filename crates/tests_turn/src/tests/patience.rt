//! Clients that are waited for, up to their deadline. A loop looks at deadlines once a second.

use super::client::{asks, connect, is_let_go, pause, send, since};
use super::dials::Dials;
use super::house::Stage;
use super::{Fault, demand};
use std::sync::Wait;
use std::time::{Clock, Instant};

/// A silent client is let go.
pub(super) fn silent<R>(stage: &Stage<'_, '_, R>) -> Result<(), Fault>
where
    R: Dials + Wait + Clock,
{
    let mut first = connect(stage)?;
    let begun = Instant::now(stage.rt)?;
    asks(&mut first, "a", "a", "before the silence")?;
    is_let_go(&mut first, "a silent client")?;
    demand(since(stage.rt, begun) >= 290, "patience")
}

/// A message has a deadline of its own, whatever comes meanwhile.
pub(super) fn dripping<R>(stage: &Stage<'_, '_, R>) -> Result<(), Fault>
where
    R: Dials + Wait + Clock,
{
    let mut client = connect(stage)?;
    send(&mut client, "[")?;
    for _ in 0..60 {
        pause(stage.rt, 100);
        if asks(&mut client, "a", "a", "a drop").is_err() {
            return Ok(());
        }
    }
    Err(Fault::Row("a message that drips for ever"))
}

/// A client that says something in time stays, however long.
pub(super) fn chatting<R>(stage: &Stage<'_, '_, R>) -> Result<(), Fault>
where
    R: Dials + Wait + Clock,
{
    let mut client = connect(stage)?;
    for _ in 0..12 {
        pause(stage.rt, 300);
        asks(&mut client, "a", "a", "in time")?;
    }
    Ok(())
}
