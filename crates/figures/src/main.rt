// Works through document 01's figures without a star, the slips of the rack fitter, and refusals at their edges on both
// sides, through the public calls, and prints what it saw: a line a call, its arguments and then its whole reply.
#![tactic(auto)]

mod calls;
mod fresh_maps;
mod lent;
mod list;
mod long;
mod print;
mod rack_sheet;
mod read;

use std::io;

fn main(rt: HostRuntime) -> io::Result<()> {
    fresh_maps::sizes(&rt)?;
    fresh_maps::maps(&rt)?;
    fresh_maps::rooms(&rt)?;
    fresh_maps::expansions(&rt)?;
    read::map_3(&rt)?;
    read::map_5(&rt)?;
    list::lists(&rt)?;
    rack_sheet::sheets(&rt)?;
    lent::tables(&rt)?;
    long::tables(&rt)?;
    long::growths(&rt)
}
