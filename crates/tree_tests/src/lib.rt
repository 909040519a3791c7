#![tactic(auto)]

// Long runs of changes on tables of nodes; after each change the checker is asked, and every point
// is looked up.
#[cfg(test)]
mod broken;
#[cfg(test)]
mod checks;
#[cfg(test)]
mod runs;
#[cfg(test)]
mod trial;
