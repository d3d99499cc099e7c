//! The values that a device shows in its pages: sixteen values of at most 32 bytes, and the words by which a script shows one.
#![tactic(auto)]

mod kept;
mod laws;
mod record;
mod spelling;
mod values;
mod word;

pub use kept::Kept;
pub use laws::given_is_shown;
pub use record::ValueCapture;
pub use spelling::Spelling;
pub use values::{LONGEST_VALUE, MOST_VALUES, Values};
pub use word::Word;

#[cfg(test)]
mod tests;
