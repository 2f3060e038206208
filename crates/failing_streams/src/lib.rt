//! Each command over a source or a sink that fails, at each of its reads and writes in turn. There are tests alone.
#![tactic(auto)]

#[cfg(test)]
mod tests;
