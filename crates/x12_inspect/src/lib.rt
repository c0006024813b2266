//! What everybody with an EDI file asks: is it all right, what is in it, and what does this
//! acknowledgment say. In words and as JSON, from any reader to any writer.
#![tactic(auto)]

mod accepting;
mod answered;
mod answered_json;
mod answered_words;
mod checking;
mod coded;
mod elements;
mod excerpt;
mod explaining;
mod fault;
mod header_words;
mod inspecting;
mod naming;
mod pending;
mod piece;
mod printing;
mod refusing;
mod remarking;
mod report;
mod report_csv;
mod report_json;
mod report_words;
mod said;
mod sending;
mod showing;
mod slice;
mod standing;
mod style;
mod text;
mod told;
mod trailer;

pub use accepting::accepts_all;
pub use checking::{CheckTerms, run_check};
pub use explaining::{Explained, run_explain, run_pending};
pub use inspecting::Outcome;
pub use report::run_unread;
pub use report_csv::CSV_HEAD;
pub use sending::{read_sent, run_check_as_sender};
pub use showing::{ShowTerms, run_show};
pub use style::{Form, Look, Style};
pub use text::shown;
