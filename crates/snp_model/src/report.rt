use crate::GuestState;

/// What a report says of a guest at the end.
#[derive(Clone, Copy, Debug, PartialEq, Eq)]
pub struct GuestLine {
    /// The guest, numbered from 1.
    pub guest: u8,
    /// The state of its context.
    pub state: GuestState,
    /// How many pages were launched.
    pub pages: u32,
    /// The launch digest.
    pub digest: [u8; 48],
}
