// The sink's tables and counts. Bytes of open objects stand at the front of the work buffer and grow up; packed bytes
// stand at its end and grow down, the newest object first. Links stand so in their table too.

// The bytes of a link's field.
#[derive(Clone, Copy, PartialEq, Eq, Debug)]
pub enum Width {
    Two = 2,
    Four = 4,
}

// A field of an object, by its position there, that is to hold the distance to the object with the number `target`.
#[derive(Clone, Copy, PartialEq, Eq, Debug)]
pub struct Link {
    pub position: u32,
    pub target: u16,
    pub width: Width,
}

// How much of the work buffer and of each table is in use: a plain record, handed to the calls beside the buffer and the
// tables. A type of the three with the fact that they fit was tried: a mark could then hold no counts but those that fit,
// and older counts could not be asked for.
#[derive(Clone, Copy, Default)]
pub struct Counts {
    pub(crate) head: u32,
    pub(crate) tail: u32,
    pub(crate) lhead: u16,
    pub(crate) ltail: u16,
    pub(crate) objects: u16,
    pub(crate) depth: u16,
}

// An open object: the counts at its opening.
#[derive(Clone, Copy, Default)]
pub struct Frame {
    pub(crate) start: Counts,
}

// A packed object: where its bytes and its links stand, and its hash.
#[derive(Clone, Copy, Default)]
pub struct Packed {
    pub(crate) head: u32,
    pub(crate) tail: u32,
    pub(crate) first: u16,
    pub(crate) last: u16,
    pub(crate) hash: u16,
}

// The tables of a sink, without its buffer and its counts: they serve any buffer.
#[derive(Drop)]
pub struct Serializer {
    pub(crate) frames: [Frame; 8],
    pub(crate) packed: [Packed; 2048],
    pub(crate) links: [Link; 4096],
}
