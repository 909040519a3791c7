#![tactic(auto)]

// What scripts print and what lines say, on examples.
#[cfg(test)]
mod capacity;
#[cfg(test)]
mod numbers;
#[cfg(test)]
mod prints;
#[cfg(test)]
mod replies;
#[cfg(test)]
mod sizes;
