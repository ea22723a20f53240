// Placing, finding and bin sizes on the maps of document 01's history after (10, 3) and after (14, 5).
use crate::calls::{GROWN, Lent, header};
use crate::print::line;
use std::io;

// Places a bucket: n; refusal, bin, position.
pub fn place(rt: &impl Print, words: &str, n: u32, lent: Lent<'_>, bucket: u32) -> io::Result<()> {
    let reply = lent.place(bucket);
    line(rt, words, &[n, reply.refusal, reply.bin, reply.position])
}

// The slips: a bin is not the bucket mod n; those that stay keep their position; a moved interval has its own adjustment.
// Then 6 at its edge.
pub fn map_3(rt: &impl Print) -> io::Result<()> {
    let lent = Lent {
        header: header(10, 2, 2),
        tops: &[2, 3],
        ends: &[7, 10],
        blocks: &[0, 1],
        adjustments: &[0, 7],
    };
    for bucket in [3, 6] {
        place(rt, "(10, 3) place", bucket, lent, bucket)?;
    }
    Ok(())
}

pub fn map_5(rt: &impl Print) -> io::Result<()> {
    for bucket in [10, 13, 14, 4_294_967_295] {
        place(rt, "(14, 5) place", bucket, GROWN, bucket)?;
    }
    finds_5(rt)?;
    for bin in [3, 4, 5] {
        let reply = GROWN.bin_size(bin);
        line(rt, "(14, 5) bin size", &[bin, reply.refusal, reply.buckets])?;
    }
    Ok(())
}

// Bins and positions. 7: positions of the label, past the last bucket, and past the last bin.
const FINDS: [[u32; 2]; 13] = [
    [0, 0],
    [0, 2],
    [0, 3],
    [0, 7],
    [0, 8],
    [0, 10],
    [0, 11],
    [4, 7],
    [4, 8],
    [4, 9],
    [4, 10],
    [5, 8],
    [4_294_967_295, 4_294_967_295],
];

// bin, position; refusal, bucket
fn finds_5(rt: &impl Print) -> io::Result<()> {
    for [bin, position] in FINDS {
        let reply = GROWN.find(bin, position);
        let numbers = [bin, position, reply.refusal, reply.bucket];
        line(rt, "(14, 5) find", &numbers)?;
    }
    Ok(())
}
