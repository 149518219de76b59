//! What a request asks, when it is taken apart.

// A read is a case of its own, and no lack of a write.
// `length` is 0 if the request leaves it to the entry, as `Taken.write_unsaid` says: so it is no Option.
#[derive(Clone, Copy)]
pub enum Access {
    Read,
    Write { length: u8, content: u32 },
}

#[derive(Clone, Copy)]
pub struct Ask {
    pub index: u16,
    pub sub: u8,
    pub access: Access,
}
