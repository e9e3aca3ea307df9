mod ending;
mod fields;
mod finding;
mod heads;
mod laws;
mod reader;

pub use ending::AnswerEnding;
pub use fields::{ANSWER_LIMIT, AnswerFraming};
pub use laws::{answer_is_one, answer_stays, answers_are_one, answers_end_apart, fault_stays};
pub use reader::AnswerReader;
