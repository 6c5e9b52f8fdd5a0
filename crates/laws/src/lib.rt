// Laws that are about no page and no reader: tests, numbers, lists of anything, tables of numbers. There is no function here;
// specs/ has what the crates above say their own definitions with, proofs/ what they cite.
#![tactic(auto)]
