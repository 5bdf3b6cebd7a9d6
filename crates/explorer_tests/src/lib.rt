#![tactic(auto)]

// Tests of the explorer: each verdict, each refusal and their order, tickets, altered stores, grants, traces.
// Expected values are worked out by hand from the rules in docs/explorer.md.
#[cfg(test)]
mod altered;
#[cfg(test)]
mod asker;
#[cfg(test)]
mod begin_refusals;
#[cfg(test)]
mod counter;
#[cfg(test)]
mod desk;
#[cfg(test)]
mod grants;
#[cfg(test)]
mod helpers;
#[cfg(test)]
mod refusals;
#[cfg(test)]
mod tickets;
#[cfg(test)]
mod too_wide;
#[cfg(test)]
mod traces;
#[cfg(test)]
mod verdicts;
