//! The types of a reply and of what a request does.
use can::Bytes;
use names::Transfer;

// What a request does: nothing (the client's abort, which only ends a transfer), its reply waits, or its reply waits and what
// has the name `key` gets a value: for a setting the key of its own entry. Three cases, so no Option.
#[derive(Clone, Copy)]
pub enum Effect {
    Nothing,
    Reply,
    Write { key: u32, value: u32 },
}

// The bytes are 0 if there is no reply. `transfer` is the one that runs after the request.
#[derive(Clone, Copy)]
pub struct Served {
    pub bytes: Bytes,
    pub effect: Effect,
    pub transfer: Transfer,
}
