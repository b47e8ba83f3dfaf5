//! How far an active process has come since its timing control.

/// Whether an active process was woken by a timing control, and has taken a step since.
#[derive(Clone, Copy, PartialEq, Eq)]
pub enum Gait {
    /// It has met no timing control yet.
    Fresh,
    /// Its timing control has ended, and it has taken no step since.
    Woken,
    /// It has taken a step since its timing control ended.
    Inside,
}
