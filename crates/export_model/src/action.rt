/// What is done with a request that no rule refuses.
#[derive(Clone, Copy, PartialEq, Eq)]
pub enum Action {
    /// The session ends, without a reply.
    End,
    /// The request is served.
    Serve,
}
