// The schema of a row: definitions in specs/, their laws in proofs/. There is no code here but the answer's name.
#![tactic(auto)]

#[derive(Clone, Copy)]
pub enum Judged {
    Accepted,
    Refused,
}
