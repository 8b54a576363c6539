// The handles on examples: whole transactions, each refusal that keeps a handle, each call that spends one. Scaling
// runs on examples.
#![tactic(auto)]

#[cfg(test)]
mod handles;
#[cfg(test)]
mod runs;
