/// A tuple that an event releases: the place of the event in the window's list, and the unique key.
#[derive(Clone, Copy, Debug, PartialEq, Eq)]
pub struct Entry {
    pub at: u32,
    pub unique: u32,
}
