use crate::status::Status;

/// The answer to a text: its status, and what is written with it, a report, a transcript or the
/// line of a refusal, each of its lines with an LF behind it.
#[derive(Drop)]
pub struct Answer {
    pub status: Status,
    pub text: Vec<u8>,
}
