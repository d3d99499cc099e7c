//! SLIP framing (RFC 1055): encodes datagrams into frames and decodes a byte stream into datagrams. `frames` is defined on the whole list
//! of bytes; the decoder consumes them one at a time or in runs, and is proved equal to it.
#![tactic(auto)]

mod decoder;
mod encoder;
mod fed;
mod marks;
mod part;
mod plain_runs;
mod slip_text;
mod text_area;

pub use decoder::Decoder;
pub use encoder::{Encoder, encode, encoded_len, text_is_one_frame};
pub use fed::{Fed, FedRun};
pub use marks::END;
pub use part::Part;
pub use plain_runs::put_plain;
pub use slip_text::put_bytes;
