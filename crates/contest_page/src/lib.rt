//! What people are shown of a contest: a page with the verdicts of its submissions, and its names as JSON.
//!
//! A [`ContestView`] holds the names of a contest's problems and, of each submission, those of its team and problem. It gives
//! them as JSON ([`ContestView::json`]), and beside what the public sees as a page ([`write_page`]).
//!
//! Where things stand: `view.rt` is `ContestView`, `json.rt` its JSON, `table.rt` the rows of the page, and `page.rt` the page
//! itself: what stands before its rows and behind them, with its style and its script. The headers by which a page is sent
//! name the digests of both, so whoever changes them changes `content_lines` of `http_door` too; `tests/page.py` compares
//! them. `specs/Views.antt` is the JSON, `specs/Page.antt` the page.
#![tactic(auto)]

mod json;
mod page;
mod table;
mod view;
mod worked;

pub use page::{BEFORE, BEHIND, write_page};
pub use view::{ContestView, Shows, SubmissionRow};
pub use worked::{worked_json, worked_rows};
