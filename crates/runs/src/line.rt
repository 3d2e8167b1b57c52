// A call and its reply.
use faults::VaultFault;
use store::Answer;
use vault::Call;

#[derive(Clone, Copy)]
pub struct Line {
    pub call: Call,
    pub reply: Result<Answer, VaultFault>,
}
