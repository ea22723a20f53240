// The rack sheet of the map of document 01's history after (14, 5), whose five lines have 255 bytes: with room, at the edge of 34 on
// both sides, and with a table that is refused too. Points show what of the buffer is kept.
use crate::calls::{GROWN, Lent, WRONG, header};
use model::limits::MAX_BUCKETS;
use model::reply::SheetReply;
use std::io;

// refusal, length; the buffer afterwards
fn shown(rt: &impl Print, reply: SheetReply, buffer: &[u8]) -> io::Result<()> {
    println!(rt; " {} {}", reply.refusal, reply.length)?;
    rt.write_all(buffer)?;
    println!(rt)
}

fn asked(rt: &impl Print, words: &str, lent: Lent<'_>, buffer: &mut [u8]) -> io::Result<()> {
    let reply = lent.sheet(buffer);
    print!(rt; "{words}")?;
    shown(rt, reply, buffer)
}

fn sheet(rt: &impl Print, buffer: &mut [u8]) -> io::Result<()> {
    asked(rt, "(14, 5) sheet", GROWN, buffer)
}

// One interval: a bucket in a bin; the most buckets in the most bins.
fn fresh(rt: &impl Print, buckets: u32, bins: u32) -> io::Result<()> {
    let lent = Lent {
        header: header(buckets, 1, 1),
        tops: &[bins],
        ends: &[buckets],
        blocks: &[0],
        adjustments: &[0],
    };
    let mut buffer = [b'.'; 52];
    let reply = lent.sheet(&mut buffer);
    print!(rt; "fresh sheet {buckets} {bins}")?;
    shown(rt, reply, &buffer)
}

pub fn sheets(rt: &impl Print) -> io::Result<()> {
    sheet(rt, &mut [b'.'; 260])?;
    sheet(rt, &mut [b'.'; 255])?;
    sheet(rt, &mut [b'.'; 254])?;
    sheet(rt, &mut [])?;
    asked(rt, "P 11, sheet", GROWN.with_capacity(11), &mut [b'.'; 255])?;
    asked(rt, "P 10, sheet", GROWN.with_capacity(10), &mut [b'.'; 254])?;
    asked(rt, "adjustment 12, sheet", WRONG, &mut [b'.'; 254])?;
    fresh(rt, 1, 1)?;
    fresh(rt, MAX_BUCKETS, 65_535)
}
