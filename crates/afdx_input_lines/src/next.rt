//! What is answered where something more is asked for.

ghost use Rattle.std.specs.Prelude.{◌≡◌, ◌<◌};

/// Whether it was given.
#[derive(Clone, Copy, Debug, PartialEq, Eq)]
pub enum Next {
    /// It was.
    Given,
    /// There is no more: the input gave its end.
    Ended,
}

impl Next {
    /// What a read that gave so many bytes answers.
    pub fn of_read(count: usize) -> Next
        ensures given { result ≡ Next.Given → 0 < count }
        ensures ended { result ≡ Next.Ended → count ≡ 0 }
    {
        if count > 0 { Next::Given } else { Next::Ended }
    }
}

/// Whether it was given by one step towards it.
#[derive(Clone, Copy, Debug, PartialEq, Eq)]
pub enum Progress {
    /// It was.
    Given,
    /// It takes more steps.
    NotYet,
}
