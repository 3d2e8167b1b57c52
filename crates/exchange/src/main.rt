// Quotes, pays, asks hooks and trades with pools on the ready-made banks, and tells in print what was asked and what came.
#![tactic(auto)]

mod figure_lines;
mod payments;
mod quotes;
mod stop;
mod tolls;
mod trading;

use stop::Stop;

fn main(rt: HostRuntime) -> Result<(), Stop> {
    figure_lines::show(&rt)?;
    quotes::show(&rt)?;
    payments::show(&rt)?;
    tolls::show(&rt)?;
    trading::show(&rt)
}
