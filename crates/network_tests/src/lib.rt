// Tests of the routings: every law computed by running the code, worked examples, bad sizes and refusals.
#![tactic(auto)]

#[cfg(test)]
mod examples;
#[cfg(test)]
mod labellings;
#[cfg(test)]
mod laws;
#[cfg(test)]
mod sizes;
