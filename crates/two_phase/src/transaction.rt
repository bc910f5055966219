ghost use Rattle.std.specs.Prelude.{◌≡◌};
ghost use Rattle.two_phase.specs.Contents.{is_decision, request_of};

use log_entries::Request;

/// What is kept of a transaction.
#[derive(Drop)]
pub enum Transaction {
    /// It is prepared and undecided: its request.
    Open(Request),
    /// Its coordinator decided here to commit it, and some participant may still have to hear so.
    Kept,
}

impl Transaction {
    /// The request, where it is open.
    pub fn into_request(self) -> Option<Request>
        ensures { result ≡ request_of self }
    {
        match self {
            Transaction::Open(request) => Some(request),
            Transaction::Kept => None,
        }
    }

    /// Whether the decision to commit it is kept.
    pub fn is_kept(&self) -> bool
        ensures { result ≡ is_decision self.now }
    {
        matches!(self, Transaction::Kept)
    }
}
