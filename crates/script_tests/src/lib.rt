// Examples of script lines and answer lines, each proved safe and then run.
#![tactic(auto)]

#[cfg(test)]
mod answers_written;
#[cfg(test)]
mod faults_placed;
#[cfg(test)]
mod forms_read;
#[cfg(test)]
mod numbers_read;

#[cfg(test)]
use forms::RankKind;

// What a line stands behind: an open with grades, or one with due times.
#[cfg(test)]
const GRADED: Option<RankKind> = Some(RankKind::Grade);

#[cfg(test)]
const DUES: Option<RankKind> = Some(RankKind::Due);
