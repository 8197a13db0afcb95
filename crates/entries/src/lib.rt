// The 34 writable fields of the nine words as plain numbers in a lent slice (§10.2): read and written. Where a call is refused no lent
// slice changes (§9.5).
#![tactic(auto)]

mod order;
pub mod reading;
pub mod writing;
