/// What a token is for the parts of a script.
#[derive(Clone, Copy, PartialEq, Eq)]
pub enum Mark {
    /// The word `setup`.
    Setup,
    /// The word `client`.
    Client,
    /// The word `tx`.
    Tx,
    /// The word `upgrade`.
    Upgrade,
    /// The word `schedule`.
    Schedule,
    /// `{`
    Open,
    /// `}`
    Close,
    /// `;`
    End,
    /// Any other token.
    Other,
}
