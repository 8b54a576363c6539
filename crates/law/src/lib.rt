// The law of every run of the rules, and the plain answers that follow from it.
#![tactic(auto)]

ghost use Rattle.law.specs.Answers.{NeverMixed, OldNumberUntilTheEnd};
ghost use Rattle.law.specs.Law.{EveryRunHasTheLaw, SecondVersionWhileWriteLocked};
ghost use Rattle.law.specs.Worked.{WorkedExample};

use ranks::Rank;

// Every run has the law: one order, each entry once; every read as answered; every element as shown; the
// highest client goes on.
pub fn every_run_has_the_law<K: Rank>()
    ensures { EveryRunHasTheLaw K.Rank.above }
{}

// In every run an element has a second version exactly while somebody holds it for writing.
pub fn second_version_while_write_locked<K: Rank>()
    ensures { SecondVersionWhileWriteLocked K.Rank.above }
{}

// A hard read during a rescaling answers the number from before it, or of the last hard write since.
pub fn old_number_until_the_end<K: Rank>()
    ensures { OldNumberUntilTheEnd K.Rank.above }
{}

// A batch never mixes two rescalings.
pub fn never_mixed<K: Rank>()
    ensures { NeverMixed K }
{}

// The worked history has the order that the documents give, and would play wrong without it.
pub fn worked_example()
    ensures { WorkedExample }
{}
