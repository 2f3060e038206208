/// A lock that an open attempt has taken: the frame that its event named, and the frames that it covers.
#[derive(Clone, Copy, Default)]
pub struct TakenLock {
    /// The frame that its event named.
    pub frame: u32,
    /// The first of the frames that it covers.
    pub base: u32,
    /// How many they are.
    pub count: u32,
}

/// What one event of an open attempt has taken or made: the lock of a page, that of the context of a guest, or the page at the
/// place for one that is made.
#[derive(Clone, Copy)]
pub enum Taken {
    OfPage(TakenLock),
    OfContext(u8),
    Made,
}
