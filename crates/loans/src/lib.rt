// No code: the walks by hand of functions that lend a record, over any types. No crate stands on them, since the check proves
// `lock::apply` and `lock::lend` alone; they stay for the laws that docs/PORT.md names, `walk`, `lies_in` and `lies_out`.
#![tactic(auto)]
