// Lines: what a connection to a host means, call by call, and the records of what was put on it.

#![tactic(auto)]

pub mod entries;
mod house_answer;
pub mod house_host;
pub mod house_line;
mod house_reply;
mod laying;
pub mod line;
pub mod peer;
pub mod peer_calls;
pub mod peer_line;
pub mod record;
pub mod sheet;
pub mod sheet_line;
mod state;
pub mod visit;

pub use entries::Entries;
pub use house_host::HouseHost;
pub use house_line::HouseLine;
pub use line::{Line, Standing};
pub use peer::Peer;
pub use peer_line::PeerLine;
pub use record::{Entry, Letter, Trust, UnknownLetter, UnknownTrust};
pub use sheet::{HandshakeAnswer, Sheet};
pub use sheet_line::SheetLine;
pub use visit::Visit;
