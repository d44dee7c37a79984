//! Slow steps beside quick ones, and parked places.

use super::client::{asks, connect, hears_nothing, is_told, pause, send, since};
use super::dials::Dials;
use super::house::Stage;
use super::talk::SLOW;
use super::{Fault, demand};
use std::net::TcpStream;
use std::sync::Wait;
use std::sync::atomic::Ordering;
use std::time::{Clock, Instant};

// How often a time is taken before it fails.
const TRIES: u64 = 5;

/// Two of three workers take slow steps, and the third answers a quick client meanwhile.
pub(super) fn slow_steps<R>(stage: &Stage<'_, '_, R>) -> Result<(), Fault>
where
    R: Dials + Wait + Clock,
{
    let mut quick = connect(stage)?;
    let mut slow = Vec::new(stage.alloc);
    for _ in 0..12 {
        let mut client = connect(stage)?;
        send(&mut client, "S")?;
        slow.push(client)?;
    }
    pause(stage.rt, 100);
    demand(stage.dispatcher.load(stage.rt).slow <= 2, "two at a time")?;
    is_quick(stage, &mut quick)?;
    for client in &mut slow {
        is_told(client, "S", "a slow step")?;
    }
    Ok(())
}

// An answer comes in less than half of a slow step, once in five times at least.
fn is_quick<R>(stage: &Stage<'_, '_, R>, client: &mut TcpStream) -> Result<(), Fault>
where
    R: Wait + Clock,
{
    for _ in 0..TRIES {
        let begun = Instant::now(stage.rt)?;
        asks(client, "a", "a", "beside slow steps")?;
        if since(stage.rt, begun) < (SLOW / 2) as u128 {
            return Ok(());
        }
    }
    Err(Fault::Row("a quick client beside slow steps"))
}

/// Parked places hold no worker, and go on once they may.
pub(super) fn parked<R>(stage: &Stage<'_, '_, R>) -> Result<(), Fault>
where
    R: Dials + Wait + Clock,
{
    let mut clients = Vec::new(stage.alloc);
    for _ in 0..5 {
        let mut client = connect(stage)?;
        send(&mut client, "Pa")?;
        clients.push(client)?;
    }
    let mut other = connect(stage)?;
    asks(&mut other, "a", "a", "beside parked places")?;
    for client in &mut clients {
        hears_nothing(client, 50, "parked")?;
    }
    stage.bell.store(1, Ordering::SeqCst);
    for client in &mut clients {
        is_told(client, "Pa", "after the bell")?;
    }
    Ok(())
}

/// A place that is woken goes on before its tenth of a second is over, once in five times at least.
pub(super) fn woken<R>(stage: &Stage<'_, '_, R>) -> Result<(), Fault>
where
    R: Dials + Wait + Clock,
{
    for _ in 0..TRIES {
        stage.bell.store(0, Ordering::SeqCst);
        let mut client = connect(stage)?;
        send(&mut client, "P")?;
        hears_nothing(&mut client, 250, "parked")?;
        stage.bell.store(1, Ordering::SeqCst);
        let begun = Instant::now(stage.rt)?;
        let place = stage.parked.load(Ordering::SeqCst).saturating_sub(1);
        stage.dispatcher.wake(stage.rt, place as usize);
        is_told(&mut client, "P", "woken")?;
        if since(stage.rt, begun) < 30 {
            return Ok(());
        }
    }
    Err(Fault::Row("a place that is woken"))
}
