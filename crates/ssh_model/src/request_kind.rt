/// What a client's request for a user showed (RFC 4252).
#[derive(Clone, Copy, Debug, PartialEq, Eq)]
pub enum RequestKind {
    /// Nothing: the method `none` (section 5.2).
    Nothing,
    /// A password (section 8).
    Password,
    /// A key without a signature, which asks whether the key would do (section 7).
    Probe,
    /// A signature by a key (section 7).
    Signature,
}
