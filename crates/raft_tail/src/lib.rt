//! What stands in a part of a file at the place where no batch can be read: a batch that is broken off, or
//! batches further on, of this file or signed for another.
#![tactic(auto)]

pub mod broken;
pub mod elsewhere;
mod errors;
mod header;
mod items;
pub mod laws;
pub mod sound;

pub use broken::is_broken_off;
pub use elsewhere::signed_elsewhere;
pub use sound::next_sound;
