// The demonstration: a client and a server open a connection just below the rollover of the sequence numbers, exchange segments
// across it out of order, twice and with forgeries between, change a key, and end alike in another order of arrival (document 01,
// "Positions", "A connection's life"; demand 3). Nothing here is a theorem: the calls are run, and what they gave is printed and compared.
#![tactic(auto)]

mod alike;
mod calls;
mod key_tables;
mod opening;
mod report;
mod rows;
mod runs;
mod script;
mod segments;
mod words;

fn main(rt: HostRuntime) {
    report::title(&rt);
    let start = opening::open(&rt);
    rows::first_title(&rt);
    let (way, one) = runs::first(&rt, start);
    report::counts(&rt, &one);
    let two = runs::second(&way, start);
    report::verdicts(&rt, &one, &two);
    report::ends(&rt, &one, &two);
}
