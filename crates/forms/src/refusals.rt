// Why a call is refused, as a number.
ghost use Rattle.std.specs.Prelude.{◌≡◌};
ghost use Rattle.forms.specs.Refusals.{Refusal, number};

/// A fault of any call. Whoever adds one says which refusal it is, with its number and its values.
pub trait Refused {
    ghost refusal: { Self → Refusal };

    /// The refusal's number.
    fn number(&self) -> u8
        ensures { result ≡ number (refusal self.now) };
}
