//! `lines` over memory: how much it reads, and a fault at every read and write.

use super::{demand, new_writer, reader_of};
use counted_io::FailAt;
use robots_check::{TextFault, lines};
use std::test::Fail;

const TEXT: &[u8] = b"# c\nUser-agent: FooBot\r\nAllow: /a b\rDisallow:";

const OUTPUT: &[u8] = b"1 other\n2 agent name foobot\n3 allow /a%20b\n4 disallow\n";

// A first line, a comment one octet past the limit, and a line that ends past the limit.
fn long_text(rt: &HostRuntime) -> Result<Vec<u8>, Fail> {
    let mut text = b"User-agent: *\n".to_vec(rt.alloc())?;
    text.resize(14 + 511_978, b'#')?;
    text.extend_from_slice(b"\nAllow: /more than is read")?;
    Ok(text)
}

#[test]
fn reads_one_octet_past_the_limit(rt: HostRuntime) -> Result<(), Fail> {
    let mut reader = FailAt::new(long_text(&rt)?, 65_536, None);
    demand(is_read_so_far(&rt, &mut reader), "a text past the limit", 0)
}

fn is_read_so_far(rt: &HostRuntime, reader: &mut FailAt) -> bool {
    let mut writer = new_writer(rt.alloc());
    let result = lines(rt.alloc(), reader, &mut writer);
    result == Ok(())
        && reader.unread() == b"more than is read".as_slice()
        && writer.bytes() == b"1 agent all\n2 other\n".as_slice()
}

#[test]
fn a_read_fails(rt: HostRuntime) -> Result<(), Fail> {
    // The last read finds the end.
    for octets in 0..TEXT.len() + 1 {
        let mut reader = reader_of(rt.alloc(), TEXT, 1, Some(octets as u64))?;
        demand(is_told_of_read(&rt, &mut reader), "a read", octets)?;
    }
    Ok(())
}

fn is_told_of_read(rt: &HostRuntime, reader: &mut FailAt) -> bool {
    let mut writer = new_writer(rt.alloc());
    let result = lines(rt.alloc(), reader, &mut writer);
    result == Err(TextFault::Read) && reader.failures() == 1 && writer.bytes().is_empty()
}

#[test]
fn a_write_fails(rt: HostRuntime) -> Result<(), Fail> {
    for call in 0..OUTPUT.len() {
        let mut reader = reader_of(rt.alloc(), TEXT, 65_536, None)?;
        demand(is_told_of_write(&rt, &mut reader, call), "a write", call)?;
    }
    Ok(())
}

fn is_told_of_write(rt: &HostRuntime, reader: &mut FailAt, call: usize) -> bool {
    let mut writer = FailAt::new(Vec::new(rt.alloc()), 1, Some(call as u64));
    let result = lines(rt.alloc(), reader, &mut writer);
    let is_told = result == Err(TextFault::Write) && writer.failures() == 1;
    is_told && OUTPUT.starts_with(writer.bytes()) && writer.bytes().len() == call
}
