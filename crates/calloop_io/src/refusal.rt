//! The refusal of a registration, which an adapter keeps for its next poll.
ghost use Rattle.std.specs.Prelude.{◌≡◌, true};
ghost use Rattle.calloop_io.specs.Refusals.{of_registration};

use calloop_slots::error::Error;

#[derive(Drop)]
pub(crate) struct Refusal {
    error: Error,
    ghost came: { of_registration error ≡ true },
}

impl Refusal {
    // Makes the refusal of a registration that failed with this error.
    pub(crate) fn new(error: Error) -> Refusal
        requires { of_registration error ≡ true }
        ensures { result.error ≡ error }
    {
        Refusal { error }
    }

    pub(crate) fn error(&self) -> &Error
        ensures { result.now ≡ self.now.error }
    {
        &self.error
    }

    pub(crate) fn into_error(self) -> Error
        ensures error { result ≡ self.error }
        ensures came { of_registration result ≡ true }
    {
        let Refusal { error } = self;
        error
    }
}
