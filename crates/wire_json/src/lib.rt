//! The JSON bodies of the judge server: what a request's body says, and the body of each reply.
//!
//! Where things stand: `routes.rt` what a request may ask for, `bodies.rt` what its body says, `reading.rt` the
//! lists of fields, over `fields.rt`, which reads one field, `strings.rt`, which counts the bytes of its strings, and
//! `faults.rt`, what is wrong with a body;
//! `replies.rt` the JSON of each reply, `rows.rt` the rows of boards and matrices, `answers.rt` names and answers
//! as text.
//!
//! To add a reply write a line in `specs/Replies.antt` and one in `proofs/Plain.antt`, and an arm in `replies.rt`.
//!
//! To add a route, a line in `specs/Bodies.antt` and an arm in `reading.rt`.
#![tactic(auto)]

mod answers;
mod bodies;
mod faults;
mod fields;
mod reading;
mod replies;
mod routes;
mod rows;
mod strings;
mod worked;

pub use answers::name_text;
pub use bodies::Body;
pub use faults::{BodyFault, Field, fault_json};
pub use fields::{kind_in, number_in, whole_in};
pub use reading::{object_of, read_body};
pub use replies::write_json;
pub use routes::Route;
pub use worked::{worked_bodies, worked_faults, worked_replies, worked_rows};
