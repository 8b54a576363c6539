// Examples of tables at their edges, each proved safe and then run.
#![tactic(auto)]

#[cfg(test)]
mod images;
#[cfg(test)]
mod limited;
#[cfg(test)]
mod lists;
