//! Worked examples of views, each call once with ample memory, and views that threads share.
#![tactic(auto)]

#[cfg(test)]
mod appending;
#[cfg(test)]
mod calls;
#[cfg(test)]
mod entries;
#[cfg(test)]
mod removals;
#[cfg(test)]
mod threads;
