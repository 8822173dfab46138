ghost use Rattle.std.specs.Prelude.{◌≡◌};

use bp_value::{OutOfMemory, ShapeFault};

/// Why a text is refused. Places are counted in bytes, from 0.
#[derive(Debug, Clone, Copy, PartialEq, Eq)]
pub enum TextError {
    /// The token that begins at `at` is the first that cannot stand there. Where the text ends too
    /// early, `at` is its length.
    BadText { at: usize },
    /// The word `float` stands at `at`, where a base of a shape may stand.
    Float { at: usize },
    /// The text spells a shape that is not good.
    NotGood(ShapeFault),
    OutOfMemory,
}

impl From<OutOfMemory> for TextError {
    ghost use Rattle.bp_text.specs.declared.error.TextError.TheVariants as error;

    ghost from_gives = { λ _ e. e ≡ error.OutOfMemory };

    fn from(_: OutOfMemory) -> TextError {
        TextError::OutOfMemory
    }
}
