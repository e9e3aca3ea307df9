//! In which order the words of a command may stand.
//!
//! Each function has an empty body, and its contract is the law.
//!
//! Where things stand: `specs/Items.antt` has operands, options and flags as words; `proofs/Said.antt` shows that rows
//! which say the same are read alike, `Walks.antt` and `Entering.antt` where words lead, item by item, `Leaves.antt`
//! what the grammar has of each command, and `AnyOrder.antt` puts these together.
#![tactic(auto)]

mod orders;

pub use orders::options_stand_in_any_order;
