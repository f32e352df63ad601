// What approving and rejecting share, on tables that are given sound: the decision stored. For `ledger_approvals` and `ledger_rejections`.
// `store` takes the two tables that it changes apart, as those above it are lent them: C lends each by itself.
#![tactic(auto)]

pub mod store;
