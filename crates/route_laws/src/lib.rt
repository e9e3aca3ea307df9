//! What the table of the server's paths says, in plain words: which path each route has, and that no other path names
//! it.
//!
//! Each function has an empty body, and its contract is the law.
//!
//! Where things stand: `specs/PathTexts.antt` has the path of each route; `proofs/Seeking.antt` shows that a path which
//! a router matches is spelled by one of its patterns, `Walking.antt` where a path leads, `Numerals.antt` that a number
//! has one text, `Patterns.antt` what the table's patterns spell, `RoutedRequests.antt` what methods add to it, and
//! `Queries.antt` what stands before a question mark.
#![tactic(auto)]

mod routes;

pub use routes::{
    a_path_and_a_method_are_asked_for, a_query_is_no_part_of_the_path, each_route_has_one_path,
};
