// Pixels: the format that the words give them, their order inside a word (§4) and their colours (§5). Every function here is total;
// what walks over memory stands in `drawing`.
#![tactic(auto)]

pub mod colours;
pub mod format;
pub mod order;
