//! Bounds, ranges and components, and what a concatenation of components may be claimed to be.
#![tactic(auto)]

mod component;
mod concatenation;
mod laws;
mod mapped;
mod ranges;

pub use component::{Component, ComponentType};
pub use concatenation::{
    FillerAlign, filler_alignment, guaranteed_nonzero, has_filler, has_static_width,
    is_deterministic,
};
pub use laws::{aligned_one_by_one, examples};
pub use ranges::{Usb, Usbr};
