//! All layers at the bounds of what they take. The tests stand here and not beside the code, since a crate with tests is proved twice.
//! Most are one table of calls with their answers, played by one function: that is quicker to prove than a test with as many calls.
#![tactic(auto)]

#[cfg(test)]
mod answers;
#[cfg(test)]
mod bytes;
#[cfg(test)]
mod counts;
#[cfg(test)]
mod ids;
#[cfg(test)]
mod memories;
#[cfg(test)]
mod own;
#[cfg(test)]
mod queue;
#[cfg(test)]
mod settings;
#[cfg(test)]
mod steps;
