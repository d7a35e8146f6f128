ghost use Rattle.std.specs.Prelude.{◌≡◌};
ghost use Rattle.machine_image.specs.declared.fault.ImageFault.TheVariants.{Memory};

use std::alloc::{AllocError, AllocFailed};

/// Why bytes were not read as an image.
#[derive(Clone, Copy, Debug, PartialEq, Eq)]
pub enum ImageFault {
    /// They are none: `at` is the place of the first byte of the first number that is refused, how many bytes there are where
    /// they end too early, or the place of the first byte too many.
    Bad { at: u64 },
    /// Memory ran out.
    Memory,
}

impl From<AllocError> for ImageFault {
    ghost from_gives = { λ _ e. e ≡ Memory };

    fn from(_e: AllocError) -> ImageFault {
        ImageFault::Memory
    }
}

impl<T: Drop> From<AllocFailed<T>> for ImageFault {
    ghost from_gives = { λ _ e. e ≡ Memory };

    fn from(_e: AllocFailed<T>) -> ImageFault {
        ImageFault::Memory
    }
}
