// Tables of cases at the edges: limits, what is no value, the order of refusals, and lines of a session.
#![tactic(auto)]

#[cfg(test)]
mod counting;
#[cfg(test)]
mod lines;
#[cfg(test)]
mod sources;
mod worked;
