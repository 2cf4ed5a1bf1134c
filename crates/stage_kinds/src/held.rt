/// What a stage's work holds.
pub enum Held<S, K, P, Q> {
    /// It holds nothing.
    Nothing,

    /// The file that it reads.
    Source(S),

    /// The file that it writes.
    Sink(K),

    /// A filter of the caller, and its place among those that were handed in.
    Filter(P, usize),

    /// A tally of the caller, and its place among those that were handed in.
    Tally(Q, usize),
}
